#![tactic(auto)]
// A recorded session replayed: the calls of a block made on a bench, one after another, and what each says.
ghost use Rattle.std.specs.Prelude.{◌≡◌};
ghost use Rattle.replay.specs.Names.{lent_of};
ghost use Rattle.replay.specs.Replay.{replayed, replay_of};

use memory::Memories;
use prices::Prices;
use session::Bench;

// Calls made one after another, their answers written as 16 bytes each, and the bench after them; nothing where there is no room.
pub fn replay(
    start: Bench,
    calls: &[u8],
    memories: &Memories,
    prices: Prices,
    out: &mut [u8],
) -> Bench
    ensures { replayed result out.new
        ≡ replay_of (lent_of memories.now) prices start calls.now out.old }
{
    let n = calls::count(calls);
    if out.len() / run::ANSWER < n {
        return start;
    }
    let mut bench = start;
    for i in 0..n {
        let s = bench.step(calls::decode(calls, calls::SIZE * i), memories, prices);
        run::answers::put_said(out, run::ANSWER * i, s.said, s.from);
        bench = s.bench;
    }
    bench
}
