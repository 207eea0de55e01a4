//! Lines of text, made on the stack.

ghost use Rattle.std.specs.Prelude.{◌≡◌, ◌+◌, ◌≤◌, ◌++◌, ◌∷◌, length, decimal};
ghost use Rattle.arrayvec.specs.ArrayVec.{array_vec_len};

use arrayvec::ArrayVec;
use itoa::Buffer;

/// A line that is being made, of at most 256 bytes.
pub type Line = ArrayVec<u8, 256>;

/// Puts bytes at the line's end.
pub fn put(line: &mut Line, bytes: &[u8])
    requires { array_vec_len line.old + length bytes.now ≤ 256 }
    ensures items { line.new.items ≡ line.old.items ++ bytes.now }
    ensures len { array_vec_len line.new ≡ array_vec_len line.old + length bytes.now }
{
    line.try_extend_from_slice(bytes).unwrap();
}

/// Puts a space and a number at the line's end, which takes at most 41 bytes.
pub fn put_number(line: &mut Line, n: u32)
    requires { array_vec_len line.old + 41 ≤ 256 }
    ensures items { line.new.items ≡ line.old.items ++ 32 ∷ decimal n }
    ensures len { array_vec_len line.new ≤ array_vec_len line.old + 41 }
{
    let mut buffer = Buffer::new();
    put(line, b" ");
    put(line, buffer.format(n).as_bytes());
}
