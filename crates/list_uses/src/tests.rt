// Fresh links of both kinds, and single links set.

ghost use Rattle.std.specs.Prelude.{◌≡◌, ◌<◌, length};

use link_pool::RawLinks;
use links::{IndexLinks, Links};
use std::process::Abort;
use std::test::Fail;

// Of four fresh nodes each is its own neighbour. Then 3 and 1 are linked, and nothing else.
fn links_of_four<L: Links>(rt: &impl Abort, mut links: L)
    requires { (length (L.nexts links) ≡ 4) × (length (L.prevs links) ≡ 4) }
{
    assert_eq!(rt; (links.next(3), links.prev(3)), (3, 3));
    assert_eq!(rt; (links.next(0), links.prev(0)), (0, 0));
    links.set_next(3, 1);
    links.set_prev(1, 3);
    assert_eq!(rt; (links.next(3), links.prev(3)), (1, 3));
    assert_eq!(rt; (links.next(1), links.prev(1)), (1, 3));
    assert_eq!(rt; (links.next(2), links.prev(2)), (2, 2));
}

#[test]
fn each_node_is_its_own_neighbour(rt: HostRuntime) -> Result<(), Fail> {
    links_of_four(&rt, IndexLinks::new(rt.alloc(), 4)?);
    links_of_four(&rt, RawLinks::new(rt.alloc(), 4)?);
    Ok(())
}

#[test]
fn no_nodes(rt: HostRuntime) -> Result<(), Fail> {
    let _by_index = IndexLinks::new(rt.alloc(), 0)?;
    let _by_pointer = RawLinks::new(rt.alloc(), 0)?;
    Ok(())
}
