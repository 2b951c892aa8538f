//! All the memory that the system still gives.
use std::alloc::Global;
use std::io;

/// As many blocks are taken at most.
const MOST_BLOCKS: usize = 65_536;

/// The first blocks that are asked for are half as large as all that a process can address.
const LARGEST: usize = 1 << 46;

/// Up to this size the heap keeps the blocks of each size apart, so each size is asked for.
const SMALL: usize = 1024;

/// The sizes of small blocks go on by so many bytes.
const STEP: usize = 16;

/// Blocks of memory, that none is left for anybody else.
#[derive(Drop)]
pub(crate) struct Hoard {
    alloc: Global,
    blocks: Vec<Vec<u8>>,
}

impl Hoard {
    /// A hoard without a block.
    pub(crate) fn new(alloc: Global) -> io::Result<Hoard> {
        let blocks = Vec::with_capacity(alloc, MOST_BLOCKS)?;
        Ok(Hoard { alloc, blocks })
    }

    /// Takes all that is left. Nobody writes into the blocks, so that it costs addresses and next to no memory.
    pub(crate) fn take_all(&mut self) {
        let mut size = LARGEST;
        while size > 0 {
            self.take(size);
            size = if size > SMALL {
                size / 2
            } else {
                size - size.min(STEP)
            };
        }
    }

    /// Takes blocks of this size until one is refused.
    fn take(&mut self, size: usize) {
        for _ in self.blocks.len()..self.blocks.capacity() {
            let Ok(block) = Vec::with_capacity(self.alloc, size) else {
                return;
            };
            let Ok(()) = self.blocks.push(block) else {
                return;
            };
        }
    }

    /// Gives all blocks back.
    pub(crate) fn give_back(&mut self) {
        self.blocks.clear();
    }
}
