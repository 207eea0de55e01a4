//! The number of an entry's node.

ghost use Rattle.std.specs.Prelude.{◌≡◌};
ghost use Rattle.trace_law.specs.Of.{number_of};

use nc_base::Number;
use run_log::Entry;

/// The number of the node that an entry is of; an edit is of none.
pub fn number_of(entry: &Entry) -> Option<Number>
    ensures { result ≡ number_of entry.now }
{
    match *entry {
        Entry::Dispatch { n, .. }
        | Entry::Block { n, .. }
        | Entry::End { n }
        | Entry::Pick { n, .. }
        | Entry::Test { n, .. }
        | Entry::Assign { n, .. }
        | Entry::Set { n }
        | Entry::Pass { n }
        | Entry::Note { n } => Some(n),
        Entry::Edit { .. } => None,
    }
}
