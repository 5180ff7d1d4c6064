//! Listening at the paths of the blocks.
ghost use Rattle.std.specs.Prelude.{◌≡◌, ◌<◌, ◌^◌, length};
ghost use Rattle.proxy_loop.specs.Listening.{ListenDid};

use crate::turns::ServerEnd;
use link_traits::{Net, NetFault};
use policy_args::Block;

/// Listens at each block's path in the order of the blocks, until one is refused.
pub fn listen<N: Net>(net: &mut N, blocks: &[Block]) -> Result<(), ServerEnd>
    requires { length blocks.now < 2 ^ 32 }
    ensures did { ListenDid blocks.now (N.view net.old) (N.view net.new) result }
{
    let mut count: u32 = 0;
    for block in blocks {
        match net.listen(&block.path) {
            Ok(_) => count += 1,
            Err(NetFault::Failed) => return Err(ServerEnd::Listen(count)),
            Err(NetFault::Memory) => return Err(ServerEnd::Memory),
        }
    }
    Ok(())
}
