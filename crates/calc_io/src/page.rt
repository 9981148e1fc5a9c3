ghost use Rattle.std.specs.Prelude.{◌≡◌, ◌+◌, ◌<◌, ◌≤◌, ◌++◌, [], min, length, take, IfOk, IfNone, IfSome, vec_len, vec_capacity};

use calc_addr::NoMemory;
use std::alloc::Global;

/// Bytes in memory with room for more.
#[derive(Drop)]
pub(crate) struct Page {
    bytes: Vec<u8>,
    room: usize,
    ghost roomy: { vec_len bytes + room ≤ vec_capacity bytes },
}

impl Page {
    pub(crate) fn new(alloc: Global, room: usize) -> Result<Page, NoMemory>
        ensures bytes { IfOk result (λ page. page.bytes.items ≡ []) }
        ensures room { IfOk result (λ page. page.room ≡ room) }
    {
        Ok(Page {
            bytes: Vec::with_capacity(alloc, room)?,
            room,
        })
    }

    pub(crate) fn bytes(&self) -> &[u8]
        ensures { result.now ≡ self.now.bytes.items }
    {
        &self.bytes
    }

    /// Takes bytes from the front of `piece`, at most so many, and answers how many. None is answered
    /// where no room is left for the first of them.
    pub(crate) fn write(&mut self, piece: &[u8], most: usize) -> Option<usize>
        requires { 0 < most }
        ensures taken { IfSome result (λ taken.
            taken ≡ min (min (length piece.now) self.old.room) most) }
        ensures some { IfSome result (λ taken. 0 < length piece.now → 0 < taken) }
        ensures bytes { IfSome result (λ taken.
            self.new.bytes.items ≡ self.old.bytes.items ++ take taken piece.now) }
        ensures room { IfSome result (λ taken. self.new.room + taken ≡ self.old.room) }

        ensures full { IfNone result ((self.old.room ≡ 0) × (0 < length piece.now)) }
        ensures same_bytes { IfNone result (self.new.bytes.items ≡ self.old.bytes.items) }
        ensures same_room { IfNone result (self.new.room ≡ self.old.room) }
    {
        if self.room == 0 && !piece.is_empty() {
            return None;
        }
        let taken = piece.len().min(self.room).min(most);
        self.bytes.extend_from_slice(&piece[..taken]).unwrap();
        self.room -= taken;
        Some(taken)
    }
}
