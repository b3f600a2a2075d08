// The numbers that are drawn: the costs and the demands.
ghost use Rattle.std.specs.Prelude.{◌≡◌, ◌≤◌, ◌<◌, ◌^◌, IfOk};
ghost use Rattle.made_up_books.specs.MadeUp.{costs, demands, draws, next_seed};

use memory::Memory;
use std::alloc::Global;

// The seed before the first draw.
const SEED: u64 = 1;

/// The costs by rows, and the demands.
#[derive(Drop)]
pub(crate) struct Drawn {
    pub costs: Vec<u16>,
    pub demands: Vec<u16>,
}

impl Drawn {
    /// Draws the costs, and behind them the demands, for so many suppliers and places.
    #[tactic(auto, using(crate::proofs::Drawing::first_draws, crate::proofs::Drawing::length_of_draws))]
    pub fn new(alloc: Global, size: u16) -> Result<Drawn, Memory>
        requires { size ≤ 12 }
        ensures costs { IfOk result (λ d. d.costs.items ≡ costs size) }
        ensures demands { IfOk result (λ d. d.demands.items ≡ demands size) }
    {
        let places = size * size;
        let draws = draws(alloc, places + size, SEED)?;
        let (costs, demands) = draws.split_at(usize::from(places));
        Ok(Drawn {
            costs: costs.iter().map(|d| 1 + *d % 20).collect(alloc)?,
            demands: demands.iter().map(|d| 10 + *d % 10).collect(alloc)?,
        })
    }
}

// So many draws, from a seed on.
#[tactic(auto, using(crate::proofs::Drawing::draws_go_on))]
fn draws(alloc: Global, count: u16, mut seed: u64) -> Result<Vec<u16>, Memory>
    requires { seed < 2 ^ 31 }
    ensures { IfOk result (λ drawn. drawn.items ≡ draws count seed) }
{
    let mut drawn = Vec::new(alloc);
    for _ in 0..count {
        seed = next_seed(seed);
        drawn.push((seed / 65536) as u16)?;
    }
    Ok(drawn)
}

// The seed after a draw.
fn next_seed(seed: u64) -> u64
    requires { seed < 2 ^ 31 }
    ensures value { result ≡ next_seed seed }
    ensures small { result < 2 ^ 31 }
{
    (1103515245 * seed + 12345) % (1 << 31)
}
