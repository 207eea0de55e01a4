//! What lets a run go on at a place, by channel.

ghost use Rattle.std.specs.Prelude.{◌≡◌};
ghost use Rattle.place_classes.specs.Classes.{index_of, class_at};

/// How many channels have sets of their own. No tree has more.
pub const CLASS_CHANNELS: u8 = 8;

/// What lets a run go on at the place of a node of a channel.
#[derive(Clone, Copy, Debug, PartialEq, Eq)]
pub enum Class {
    /// Nothing else is needed: it is neither a workingstep nor a wait, or its step is open, or its mark is released.
    Free(u8),
    /// It is a workingstep that isn't open, which goes on where its channel has no open step.
    Idle(u8),
    /// It is a wait for a mark that isn't released.
    Shut,
}

/// The index of the set of a class.
pub fn index_of(class: Class) -> usize
    ensures { result ≡ index_of class }
{
    match class {
        Class::Free(channel) => channel as usize,
        Class::Idle(channel) => 8 + channel as usize,
        Class::Shut => 16,
    }
}

/// The class at a place.
pub fn class_at(classes: &[Class], place: u32) -> Class
    ensures { result ≡ class_at classes.now place }
{
    match classes.get(place as usize) {
        Some(class) => *class,
        None => Class::Shut,
    }
}
