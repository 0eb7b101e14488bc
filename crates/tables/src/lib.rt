// A run as two tables, of benches and of their logs. What the seven steps do to them, which run they stand for, and that the steps are the
// published rounds: definitions and theorems in specs/ and proofs/.

#![tactic(auto)]

ghost use Rattle.std.specs.Prelude.{◌≡◌};
ghost use Rattle.tables.specs.Steps.{empty_tables};

use bench::{Bench, Entry, FRESH, NO_ENTRY};
use kinds::{DEPTH, PLACES, RoundNo, SlotNo};

// Bench k + 1 stands at k.
pub type Benches = [Bench; PLACES];

// What a bench said in round r stands at r - 1.
pub type Log = [Entry; DEPTH];

// Bench k + 1's log stands at k.
pub type Logs = [Log; PLACES];

// All that is held of a run.
#[derive(Clone, Copy, Debug, Default, PartialEq, Eq, PartialOrd, Ord, Hash)]
pub struct Tables {
    pub benches: Benches,
    pub logs: Logs,
}

impl Tables {
    // A new run: every bench is fresh and has done nothing, and nothing stands in any log.
    #[tactic(auto, unfolding(crate::specs::Steps::empty_tables))]
    pub fn new() -> Tables
        ensures { result ≡ empty_tables }
    {
        let bench = Bench {
            state: FRESH,
            round: RoundNo(0),
            value: SlotNo(0),
            world: 0,
            outs: 0,
            noticed: 0,
            sent: 0,
            silent: 0,
            chose: 0,
            taken: [0; PLACES],
        };
        Tables {
            benches: [bench; PLACES],
            logs: [[NO_ENTRY; DEPTH]; PLACES],
        }
    }
}
