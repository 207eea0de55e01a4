//! Whether two entries are the same.

ghost use Rattle.std.specs.Prelude.{◌≡◌, ◌↔◌, IsTrue};

use nc_base::Verdict;
use path_blocks::Block;
use run_log::Entry;

/// Whether two blocks are the same.
fn is_block(a: &Block, b: &Block) -> bool
    ensures { IsTrue result ↔ (a.now ≡ b.now) }
{
    match (a, b) {
        (
            Block::Tool { tool, spindle },
            Block::Tool {
                tool: t,
                spindle: s,
            },
        ) => tool == t && spindle == s,
        (Block::Rapid { x, y, z }, Block::Rapid { x: p, y: q, z: r }) => x == p && y == q && z == r,
        (
            Block::Feed { x, y, z, f },
            Block::Feed {
                x: p,
                y: q,
                z: r,
                f: g,
            },
        ) => x == p && y == q && z == r && f == g,
        (Block::Dwell { ms }, Block::Dwell { ms: m }) => ms == m,
        _ => false,
    }
}

/// Whether two verdicts are the same.
fn is_verdict(a: &Verdict, b: &Verdict) -> bool
    ensures { IsTrue result ↔ (a.now ≡ b.now) }
{
    a == b
}

/// Whether two entries are the same.
pub fn is_same(a: &Entry, b: &Entry) -> bool
    ensures { IsTrue result ↔ (a.now ≡ b.now) }
{
    match (a, b) {
        (Entry::Dispatch { n, v }, Entry::Dispatch { n: m, v: w }) => n == m && v == w,
        (Entry::Block { n, k, b: x }, Entry::Block { n: m, k: j, b: y }) => {
            n == m && k == j && is_block(x, y)
        }
        (Entry::End { n }, Entry::End { n: m }) => n == m,
        (Entry::Pick { n, k }, Entry::Pick { n: m, k: j }) => n == m && k == j,
        (Entry::Test { n, yes }, Entry::Test { n: m, yes: no }) => n == m && yes == no,
        (Entry::Assign { n, x }, Entry::Assign { n: m, x: y }) => n == m && x == y,
        (Entry::Set { n }, Entry::Set { n: m }) => n == m,
        (Entry::Pass { n }, Entry::Pass { n: m }) => n == m,
        (Entry::Note { n }, Entry::Note { n: m }) => n == m,
        (
            Entry::Edit { i, verdict },
            Entry::Edit {
                i: j,
                verdict: other,
            },
        ) => i == j && is_verdict(verdict, other),
        _ => false,
    }
}
