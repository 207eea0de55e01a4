//! A whole that is gone through step by step.

ghost use Rattle.std.specs.Prelude.{◌≡◌, ◌<◌, ◌≤◌, Some, length, slice_get};
ghost use Rattle.path_blocks.specs.Cuts.{count_below, cut_count, cuts};

/// How many multiples of `step` lie below `whole`, both at least 1.
fn count_below(step: u64, whole: u64) -> u64
    requires step { 0 < step }
    requires whole { 0 < whole }
    ensures { result ≡ count_below step whole }
{
    (whole - 1) / step
}

/// How many cuts it takes to go through `whole` by `step`, both at least 1: one for each multiple of `step` below `whole`, and
/// one for `whole` itself.
pub fn cut_count(step: u64, whole: u64) -> u64
    requires step { 0 < step }
    requires whole { 0 < whole }
    ensures exact { result ≡ length (cuts step whole) }
    ensures counted { result ≡ cut_count step whole }
    ensures few { result ≤ whole }
{
    count_below(step, whole) + 1
}

/// How far the cut with this index, counted from 0, comes: `step`, 2 `step`, and so on while below `whole`, and at last `whole`.
pub fn cut(step: u64, whole: u64, index: u64) -> u64
    requires step { 0 < step }
    requires whole { 0 < whole }
    requires index { index < length (cuts step whole) }
    ensures exact { slice_get (cuts step whole) index ≡ Some result }
    ensures within { result ≤ whole }
{
    if index < count_below(step, whole) {
        (index + 1) * step
    } else {
        whole
    }
}
