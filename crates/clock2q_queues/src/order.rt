//! Places that are reused, ordered newest first, and the chain of the free ones.
ghost use Rattle.std.specs.Prelude.{◌≡◌, ◌+◌, ◌-◌, ◌*◌, ◌<◌, ◌≤◌, true, [], ◌∷◌, take, drop, length, Some, None, IfOk, nat_eq};
ghost use Rattle.std.specs.List.{last_or, list_any};
ghost use Rattle.clock2q_queues.specs.Cells.{Rises};
ghost use Rattle.clock2q_queues.specs.Rings.{without};

use crate::entries::Entry;
use crate::ring::Ring;
use std::alloc::{AllocError, Allocator, Global};
use std::marker::Model;

/// Places that were given up. The record of each links to the next.
#[derive(Clone, Copy)]
struct Chain {
    head: u32,
    len: u32,
}

/// A limited number of places, with those in use ordered newest first: the places of the keys that
/// a cache remembers, say. A place that is given up becomes the head of a chain, and
/// [`push`](Order::push) takes a place from that chain first.
///
/// # Example
///
/// ```
/// let mut order = Order::new(rt.alloc(), 2)?;
/// assert_eq!(rt; order.push(), 0);
/// assert_eq!(rt; order.push(), 1);
/// assert_eq!(rt; order.replace_oldest(), 0);
/// order.unlink(1);
/// assert_eq!(rt; order.len(), 1);
/// let order = order.grown(rt.alloc(), 3)?;
/// assert_eq!(rt; order.limit(), 3);
/// ```
#[derive(Drop)]
pub struct Order<A: Allocator = Global> {
    ring: Ring<(), A>,
    newest: u32,
    len: u32,
    chain: Chain,
}

impl<A: Allocator> Model for Order<A> {
    ghost use Rattle.clock2q_queues.specs.Links.{end_of};
    ghost use Rattle.clock2q_queues.specs.Order.{PlaceOrder, IsOrder, order_shown};

    ghost Value = { PlaceOrder };

    ghost view = { λ o. order_shown o.ring (end_of o.len o.newest) o.len o.chain };

    ghost invariant = { λ o. IsOrder o.ring (end_of o.len o.newest) o.len o.chain };
}

impl<A: Allocator> Order<A> {
    ghost use Rattle.clock2q_queues.specs.Order.{IsWholeOrder, unused, used, next_place};

    /// Returns an order of `limit` places, none of them in use. It takes all the memory that it
    /// will ever need.
    ///
    /// # Errors
    ///
    /// `AllocError` if the request for memory is refused.
    pub fn new(alloc: A, limit: u32) -> Result<Self, AllocError>
        ensures made { IfOk result (λ o. o ≡ unused limit) }
        ensures whole { IfOk result IsWholeOrder }
    {
        Ok(Order {
            ring: Ring::new(alloc, limit)?,
            newest: 0,
            len: 0,
            chain: Chain { head: 0, len: 0 },
        })
    }

    /// Returns an order of `limit` places that has the same places in use, and the same free ones. It takes
    /// all the memory that it will ever need. This order stays as it is.
    ///
    /// # Errors
    ///
    /// `AllocError` if the request for memory is refused.
    ///
    /// # Cost
    ///
    /// Two accesses for each place that was used.
    pub fn grown(&self, alloc: A, limit: u32) -> Result<Self, AllocError>
        requires limit { self.now.limit ≤ limit }
        ensures grown { IfOk result (λ o. o
            ≡ record self.now { limit = limit; accesses = o.accesses }) }
        ensures accesses { IfOk result (λ o. o.accesses ≡ self.now.accesses + 2 * used self.now) }
        ensures whole { IfOk result IsWholeOrder }
    {
        Ok(Order {
            ring: self.ring.grown(alloc, limit)?,
            newest: self.newest,
            len: self.len,
            chain: self.chain,
        })
    }

    /// Returns the number of places in use.
    pub fn len(&self) -> u32
        ensures len { result ≡ length self.now.places }
        ensures whole { IsWholeOrder self.now }
    {
        self.len
    }

    /// Returns the total number of places.
    pub fn limit(&self) -> u32
        ensures { result ≡ self.now.limit }
    {
        self.ring.places
    }

    /// Puts a free place at the front, and returns it. It is the head of the chain, or the next
    /// unused place if the chain is empty.
    pub fn push(&mut self) -> u32
        requires { length self.old.places < self.old.limit }
        ensures whole { IsWholeOrder self.new }
        ensures place { result ≡ next_place self.old }
        ensures order { self.new
            ≡ record self.old {
              places = result ∷ self.old.places;
              free = drop 1 self.old.free;
              accesses = self.new.accesses;
            } }
        ensures accesses { Rises 1 7 self.old.accesses self.new.accesses }
    {
        let mut place = self.len;
        if self.chain.len > 0 {
            place = self.chain.head;
            self.chain.head = self.ring.read(place).next;
            self.chain.len -= 1;
        }
        if self.len == 0 {
            let alone = Entry {
                previous: place,
                next: place,
                held: (),
            };
            self.ring.write(place, alone);
        } else {
            self.ring.attach(place, self.newest, ());
        }
        self.newest = place;
        self.len += 1;
        place
    }

    /// Moves the last place to the front, and returns it: a new key takes the oldest one's place.
    pub fn replace_oldest(&mut self) -> u32
        requires { 0 < length self.old.places }
        ensures whole { IsWholeOrder self.new }
        ensures oldest { last_or None self.old.places ≡ Some result }
        ensures order { self.new
            ≡ record self.old {
              places = result ∷ take (length self.old.places - 1) self.old.places;
              accesses = self.old.accesses + 1;
            } }
    {
        let oldest = self.ring.read(self.newest).previous;
        self.newest = oldest;
        oldest
    }

    /// Gives up a place, and puts it at the head of the chain.
    pub fn unlink(&mut self, place: u32)
        requires { list_any (nat_eq place) self.old.places ≡ true }
        ensures whole { IsWholeOrder self.new }
        ensures order { self.new
            ≡ record self.old {
              places = without place self.old.places;
              free = place ∷ self.old.free;
              accesses = self.old.accesses + 7;
            } }
    {
        let was = self.ring.detach(place);
        let before_head = Entry {
            previous: 0,
            next: self.chain.head,
            held: (),
        };
        self.ring.write(place, before_head);
        self.chain.head = place;
        self.chain.len += 1;
        self.len -= 1;
        if self.newest == place {
            self.newest = was.next;
        }
    }

    /// Empties the order. Every place is unused again.
    pub fn clear(&mut self)
        ensures whole { IsWholeOrder self.new }
        ensures order { self.new ≡ record self.old { places = []; free = [] } }
    {
        self.ring.clear();
        self.len = 0;
        self.chain = Chain { head: 0, len: 0 };
    }
}
