//! What a text is put into: a buffer that grows, or one of a fixed size, which takes no memory.
use arrayvec::{ArrayVec, CapacityError};
use std::alloc::AllocError;

/// What a text is put into, each piece after the one before.
pub trait TextBuffer {
    ghost use Rattle.std.specs.Prelude.{◌≡◌, ◌++◌, ℕ, List, OnOk};

    /// Why a piece is refused.
    type Refusal;

    // the bytes that it holds
    ghost held: { Self → List ℕ };

    /// Puts bytes to the end. An error comes where there is no room for them.
    fn put(&mut self, bytes: &[u8]) -> Result<(), Self::Refusal>
        ensures { OnOk result (held self.new ≡ held self.old ++ bytes.now) };
}

impl TextBuffer for Vec<u8> {
    type Refusal = AllocError;

    ghost held = { λ v. v.items };

    #[inline(always)] // so that the length of what is put is known, which is mostly a word or a digit
    fn put(&mut self, bytes: &[u8]) -> Result<(), AllocError> {
        self.extend_from_slice(bytes)
    }
}

impl<const N: usize> TextBuffer for ArrayVec<u8, N> {
    type Refusal = CapacityError;

    ghost held = { λ v. v.items };

    fn put(&mut self, bytes: &[u8]) -> Result<(), CapacityError> {
        self.try_extend_from_slice(bytes)
    }
}
