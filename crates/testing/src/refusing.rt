//! An allocator that refuses chosen requests for memory, and counts what is taken from it and given
//! back.

use std::alloc::{AllocError, Allocator};
use std::cell::Cell;

/// The numbers of the first and the last refused request. The first request has number 1.
#[derive(Clone, Copy)]
struct Refused {
    first: u64,
    last: u64,
}

/// How many requests were made, which of them are refused, if any, and how many bytes were granted
/// and given back.
#[derive(Drop)]
struct Requests {
    made: Cell<u64>,
    refused: Cell<Option<Refused>>,
    taken: Cell<u64>,
    given_back: Cell<u64>,
}

impl Requests {
    fn new() -> Requests {
        Requests {
            made: Cell::new(0),
            refused: Cell::new(None),
            taken: Cell::new(0),
            given_back: Cell::new(0),
        }
    }

    /// Counts a request for `size` bytes, and returns true if it is refused.
    fn refuses(&self, size: usize) -> bool {
        let made = self.made.get().saturating_add(1);
        self.made.set(made);
        let refused = self.refused.get();
        let is_refused = refused.is_some_and(|refused| refused.first <= made
            && made <= refused.last);
        if !is_refused {
            add(&self.taken, size);
        }
        is_refused
    }

    /// Counts `size` bytes that are given back.
    fn give_back(&self, size: usize) {
        add(&self.given_back, size);
    }
}

fn add(bytes: &Cell<u64>, size: usize) {
    bytes.set(bytes.get().saturating_add(size as u64));
}

/// An allocator that passes requests on to another, counts them, and refuses some.
///
/// What is given back is passed on too. A request that is refused doesn't reach the other
/// allocator, and one that is granted counts as taken.
///
/// # Example
///
/// ```
/// let alloc = Refusing::new(rt.alloc());
/// alloc.refuse_one_after(1);
/// let granted: Vec<u8, _> = Vec::with_capacity(&alloc, 8)?;
/// assert!(rt; Vec::<u8, _>::with_capacity(&alloc, 8).is_err());
/// assert_eq!(rt; alloc.requests(), 2);
/// ```
#[derive(Drop)]
pub struct Refusing<A: Allocator> {
    inner: A,
    requests: Requests,
}

impl<A: Allocator> Refusing<A> {
    /// Makes an allocator over `inner` that refuses nothing yet.
    pub fn new(inner: A) -> Refusing<A> {
        Refusing {
            inner,
            requests: Requests::new(),
        }
    }

    /// Returns the number of requests that were made, including those that were refused.
    pub fn requests(&self) -> u64 {
        self.requests.made.get()
    }

    /// Returns the number of bytes that were taken and not given back.
    pub fn held(&self) -> u64 {
        let given_back = self.requests.given_back.get();
        self.requests.taken.get().wrapping_sub(given_back)
    }

    /// Grants this many more requests, and refuses every later one.
    pub fn refuse_after(&self, granted: u64) {
        self.refuse(granted, u64::MAX);
    }

    /// Grants this many more requests, refuses the next one, and grants every later one.
    pub fn refuse_one_after(&self, granted: u64) {
        self.refuse(granted, 0);
    }

    /// Grants `granted` more requests, refuses the next one and `further` after it, and returns the
    /// number of the last request that is granted before them.
    pub(crate) fn refuse(&self, granted: u64, further: u64) -> u64 {
        let before = self.requests().saturating_add(granted);
        let first = before.saturating_add(1);
        let last = first.saturating_add(further);
        self.requests.refused.set(Some(Refused { first, last }));
        before
    }

    /// Grants every request from here on.
    pub fn grant(&self) {
        self.requests.refused.set(None);
    }
}

unsafe impl<A: Allocator> Allocator for Refusing<A> {
    ghost dealloc_token = { λ refusing ty ptr. A.dealloc_token refusing.inner ty ptr };

    fn allocate(&self, size: usize, align: usize) -> Result<*mut u8, AllocError> {
        if self.requests.refuses(size) {
            return Err(AllocError);
        }
        self.inner.allocate(size, align)
    }

    unsafe fn deallocate(&self, ptr: *mut u8, size: usize, align: usize) {
        self.requests.give_back(size);
        self.inner.deallocate(ptr, size, align);
    }
}
