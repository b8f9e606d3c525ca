//! Lists of keys that are numbers.

use std::alloc::{AllocError, Allocator};

/// The list of a key that is in none.
const NONE: u8 = u8::MAX;

/// The largest number of lists.
const LISTS: usize = 4;

/// A key's neighbours in its list, which list that is, and a number that a policy keeps beside it.
/// They are together, since one access needs them all.
#[derive(Clone, Copy)]
struct Node {
    newer: u32,
    older: u32,
    list: u8,
    mark: u8,
}

/// Lists with a newest and an oldest key. Each key is in at most one of them, and has a mark, 0 at
/// first.
#[derive(Drop)]
pub(crate) struct Lists<A: Allocator> {
    /// The node of each key, and then the one that closes each list to a ring.
    nodes: Vec<Node, A>,
    lengths: [usize; LISTS],
    keys: u32,
}

impl<A: Allocator + Copy> Lists<A> {
    /// Returns empty lists for keys below `keys`.
    pub(crate) fn new(alloc: A, keys: u32) -> Result<Lists<A>, AllocError> {
        let node = Node {
            newer: 0,
            older: 0,
            list: NONE,
            mark: 0,
        };
        let mut lists = Lists {
            nodes: vec![in alloc; node; (keys as usize).saturating_add(LISTS)]?,
            lengths: [0; LISTS],
            keys,
        };
        for list in 0..4 {
            let ring = lists.ring(list);
            lists.join(ring, ring);
        }
        Ok(lists)
    }
}

impl<A: Allocator> Lists<A> {
    /// Returns the number of keys of a list.
    pub(crate) fn len(&self, list: u8) -> usize {
        self.lengths.get(usize::from(list)).copied().unwrap_or(0)
    }

    /// Returns true if a key is in a list.
    pub(crate) fn has(&self, list: u8, key: u32) -> bool {
        match self.nodes.get(key as usize) {
            Some(node) => node.list == list,
            None => false,
        }
    }

    /// Returns the list of a key, or the number of no list if it is in none.
    pub(crate) fn list_of(&self, key: u32) -> u8 {
        match self.nodes.get(key as usize) {
            Some(node) => node.list,
            None => NONE,
        }
    }

    /// Returns the oldest key of a list.
    pub(crate) fn oldest(&self, list: u8) -> Option<u32> {
        self.newer(self.ring(list))
    }

    /// Returns the next newer key of the same list, if there is any.
    pub(crate) fn newer(&self, key: u32) -> Option<u32> {
        let newer = self.nodes.get(key as usize)?.newer;
        (newer < self.keys).then_some(newer)
    }

    /// Returns the mark of a key.
    pub(crate) fn mark(&self, key: u32) -> u8 {
        match self.nodes.get(key as usize) {
            Some(node) => node.mark,
            None => 0,
        }
    }

    /// Replaces the mark of a key.
    pub(crate) fn set_mark(&mut self, key: u32, mark: u8) {
        if let Some(node) = self.nodes.get_mut(key as usize) {
            node.mark = mark;
        }
    }

    /// Makes a key the newest of a list, and removes it from the list it was in.
    pub(crate) fn put(&mut self, list: u8, key: u32) {
        self.take(key);
        let ring = self.ring(list);
        let Some(newest) = self.nodes.get(ring as usize) else {
            return;
        };
        let newest = newest.older;
        self.join(newest, key);
        self.join(key, ring);
        self.count(list, 1);
        if let Some(node) = self.nodes.get_mut(key as usize) {
            node.list = list;
        }
    }

    /// Removes a key from its list, if it is in one.
    pub(crate) fn take(&mut self, key: u32) {
        let Some(node) = self.nodes.get_mut(key as usize) else {
            return;
        };
        let (older, newer, list) = (node.older, node.newer, node.list);
        if list == NONE {
            return;
        }
        node.list = NONE;
        self.join(older, newer);
        self.count(list, -1);
    }

    /// Returns the node that closes a list to a ring.
    fn ring(&self, list: u8) -> u32 {
        self.keys.saturating_add(u32::from(list))
    }

    /// Makes a node the next one after another.
    fn join(&mut self, older: u32, newer: u32) {
        if let Some(node) = self.nodes.get_mut(older as usize) {
            node.newer = newer;
        }
        if let Some(node) = self.nodes.get_mut(newer as usize) {
            node.older = older;
        }
    }

    fn count(&mut self, list: u8, more: isize) {
        if let Some(length) = self.lengths.get_mut(usize::from(list)) {
            *length = length.saturating_add_signed(more);
        }
    }
}
