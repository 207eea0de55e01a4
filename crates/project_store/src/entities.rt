//! What is asked of a store.

ghost use Rattle.std.specs.Prelude.{◌≡◌, ℕ, Option, option_copied};
ghost use Rattle.entity_types.specs.declared.entity.Entity.{Entity};

use entity_types::Entity;
use nc_base::Number;

/// Entities by number. Contracts see a finite map.
pub trait Entities {
    /// The entity of each number that is there.
    ghost entities: { Self → ℕ → Option Entity };

    /// The entity of this number. None comes exactly where there is none.
    fn get(&self, n: Number) -> Option<&Entity>
        ensures { option_copied result ≡ entities self.now n };
}
