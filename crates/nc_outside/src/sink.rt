//! A sink that takes bytes.

ghost use Rattle.std.specs.Prelude.{◌≡◌, ℕ, ◌≤◌, ◌<◌, ◌⊎◌, List, [], length, take, Option, IfOk, OnOk, OnErr, Ok};
ghost use Rattle.nc_outside.specs.Outside.{Rose, Appends, AppendsFront};

use thiserror::Error;

/// A sink could not take a piece.
#[derive(Clone, Copy, Debug, PartialEq, Eq, Error)]
#[error("the sink could not take the bytes")]
pub struct Failed;

/// Takes bytes. What it has taken may be told or not: the host's standard output tells nothing.
pub trait Sink {
    ghost taken: { Self → Option (List ℕ) };

    ghost faults: { Self → ℕ };

    /// Takes so many bytes from the front of the piece, and says how many.
    ///
    /// # Errors
    /// `Failed` where the sink can't take any, which counts as a fault of it. It has taken nothing then.
    fn put(&mut self, piece: &[u8]) -> Result<usize, Failed>
        ensures counted { faults self.old ≤ faults self.new }
        ensures within { IfOk result (λ n. n ≤ length piece.now) }
        ensures taken_front { IfOk result (λ n. Appends (taken self.old) (taken self.new) (take n piece.now)) }
        ensures failed { OnErr result (Rose (faults self.old) (faults self.new)) }
        ensures failed_takes_nothing { OnErr result (Appends (taken self.old) (taken self.new) []) }

        // To take nothing of a piece that isn't empty is a fault too.
        ensures stuck { result ≡ Ok 0 → 0 < length piece.now → Rose (faults self.old) (faults self.new) };
}

/// Puts the whole piece: where a put takes less, the rest is put again.
///
/// # Errors
/// `Failed` where a put fails, or takes nothing of what is left. The sink has taken a front of the piece then.
pub fn put_all<S: Sink>(sink: &mut S, piece: &[u8]) -> Result<(), Failed>
    ensures counted { S.faults sink.old ≤ S.faults sink.new }
    ensures ok { OnOk result (Appends (S.taken sink.old) (S.taken sink.new) piece.now) }
    ensures failed { OnErr result (Rose (S.faults sink.old) (S.faults sink.new)) }
    ensures failed_takes_front { OnErr result (AppendsFront (S.taken sink.old) (S.taken sink.new) piece.now) }
{
    let mut from = 0;
    while from < piece.len() {
        let taken = sink.put(&piece[from..])?;
        if taken == 0 {
            return Err(Failed);
        }
        from += taken;
    }
    Ok(())
}
