// What a step of a unit gives to the run.
ghost use Rattle.std.specs.Prelude.{◌≡◌, [], None, false, IfOk};

use run_capture::{Duplicate, List, Mem};
use run_events::{Ask, InfoResponse, Message};
use std::alloc::Global;

/// What a step of a unit gives to the run.
#[derive(Drop)]
pub struct UnitEffects {
    /// The message that it sends.
    pub sent: Option<Message>,
    /// What it asks of the outside.
    pub asked: Option<Ask>,
    /// Its answers to the queries that it took or that were left at its end, each with the round of its query, in
    /// order.
    pub info: List<(u32, InfoResponse)>,
    /// How many stops left its line: they are taken, or gone with the unit.
    pub acks: u64,
    /// Whether it is over now.
    pub over: bool,
}

// Copies of what a step sends and asks.
fn copy_sent(alloc: Global, effects: &UnitEffects) -> Mem<(Option<Message>, Option<Ask>)>
    ensures { IfOk result (λ copies. copies ≡ (effects.now.sent, effects.now.asked)) }
{
    let asked = effects.asked.copy(alloc)?;
    let sent = effects.sent.copy(alloc)?;
    Ok((sent, asked))
}

impl Duplicate for UnitEffects {
    fn copy(&self, alloc: Global) -> Mem<UnitEffects> {
        let info = self.info.copy(alloc)?;
        let (sent, asked) = copy_sent(alloc, self)?;
        Ok(UnitEffects {
            sent,
            asked,
            info,
            acks: self.acks,
            over: self.over,
        })
    }
}

/// A step that sends and asks nothing.
pub fn quiet(over: bool) -> UnitEffects
    ensures { result ≡ record { sent = None; asked = None; info = []; acks = 0; over = over } }
{
    UnitEffects {
        sent: None,
        asked: None,
        info: List::new(),
        acks: 0,
        over,
    }
}

/// A step that sends this and asks this, and after which its unit isn't over.
pub fn acting(sent: Option<Message>, asked: Option<Ask>) -> UnitEffects
    ensures { result ≡ record { sent = sent; asked = asked; info = []; acks = 0; over = false } }
{
    UnitEffects {
        sent,
        asked,
        info: List::new(),
        acks: 0,
        over: false,
    }
}
