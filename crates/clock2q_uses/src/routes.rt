//! Routes to services, each over one of some links.
ghost use Rattle.clock2q_uses.specs.Routes.{AreOver, routes_up};
ghost use Rattle.std.specs.Prelude.{◌≡◌, length};

use clock2q::Cache;
use std::hash::BuildHasher;

/// Removes the routes whose links are down. `up` has, for each link, whether it is up.
pub fn keep_up<S: BuildHasher>(routes: &mut Cache<u64, usize, S>, up: &[bool])
    requires links { AreOver (length up.now) routes.old.machine }
    ensures up { routes.new.machine ≡ routes_up up.now routes.old.machine }
{
    routes.retain(|_, link| up[*link]);
}
