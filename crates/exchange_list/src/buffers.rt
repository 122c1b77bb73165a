// The buffers of a list, sixteen at most.
ghost use Rattle.std.specs.Prelude.{◌≡◌, ◌≤◌, IfOk, IfSome, length};
ghost use Rattle.std.specs.BTreeMap.{btree_map_len};

use crate::words::name;
use std::alloc::{AllocError, Global};
use std::collections::BTreeMap;

// The bytes of each buffer by its name, and, until all places are taken, by the name of no letters those of the place
// that the next new name gets. (A word of nothing but letters 0 names it too.)
#[derive(Drop)]
pub struct Buffers {
    held: BTreeMap<Vec<u8>, Vec<u8>>,
    alloc: Global,
    ghost few: { btree_map_len held ≤ 16 },
}

impl Buffers {
    // No buffers, and the first free place.
    pub fn new(alloc: Global) -> Result<Buffers, AllocError>
        ensures { IfOk result (λ buffers. btree_map_len buffers.held ≡ 1) }
    {
        let mut held = BTreeMap::new(alloc);
        held.insert(Vec::new(alloc), Vec::new(alloc))?;
        Ok(Buffers { held, alloc })
    }

    // Takes the free place for a name that has none.
    pub fn enter(&mut self, name: &[u8]) -> Result<(), AllocError> {
        if self.held.contains_key(name) {
            return Ok(());
        }
        let name = name.to_vec(self.alloc)?;
        let Some(bytes) = self.held.remove(b"".as_slice()) else {
            return Ok(());
        };
        self.held.insert(name, bytes)?;
        if self.held.len() < 16 {
            self.held
                .insert(Vec::new(self.alloc), Vec::new(self.alloc))?;
        }
        Ok(())
    }

    // The name by which the buffer that a word names is held, if there is one.
    pub fn place<'a>(&self, word: &'a [u8]) -> Option<&'a [u8]>
        ensures { IfSome result (λ name. length name.now ≤ 8) }
    {
        let name = name(word);
        if (1..=8).contains(&word.len()) && self.held.contains_key(name) {
            Some(name)
        } else {
            None
        }
    }

    // The bytes of the buffer of this name; none where there is no such buffer.
    pub fn buffer(&mut self, name: &[u8]) -> &mut [u8] {
        match self.held.get_mut(name) {
            Some(bytes) => bytes,
            None => &mut [],
        }
    }

    // A copy of the bytes of the buffer of this name.
    pub fn load(&self, name: &[u8]) -> Result<Vec<u8>, AllocError> {
        match self.held.get(name) {
            Some(bytes) => bytes.clone(),
            None => Ok(Vec::new(self.alloc)),
        }
    }

    // Lets the buffer of this name hold these bytes from now on.
    pub fn keep(&mut self, name: &[u8], bytes: Vec<u8>) {
        if let Some(held) = self.held.get_mut(name) {
            *held = bytes;
        }
    }
}
