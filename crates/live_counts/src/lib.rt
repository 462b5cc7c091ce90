// The counts of a run, and what calls do to them: a call opened, a call closed, which may give cells back, and a constructor that was
// remembered. Giving back writes no byte.
#![tactic(auto)]

ghost use Rattle.std.specs.Prelude.{◌≡◌, cond, suc, ◌<◌};
ghost use Rattle.definitions.specs.Sizes.{most_cells};
ghost use Rattle.live_counts.specs.Counts.{call_opened, gives_back, call_closed, constructor_noted};

use cells::entry;

// The steps left, the cells alive, the most that were alive together, and the oldest cell in which a constructor was remembered since the
// newest open call was made, or that call's own cell where that is older; 0 where no call is open.
#[derive(Clone, Copy)]
pub struct Counts {
    pub left: u32,
    pub live: u32,
    pub most: u32,
    pub oldest: u32,
}

// How many cells are alive after a call, before which `before` were, by the kind of what its visit ended with and the oldest cell in which
// a constructor was remembered since: with a number the cells made since are given back, unless that is older than the call.
#[tactic(auto, unfolding(crate::specs::Counts::gives_back))]
fn live_after(kind: u16, before: u32, oldest: u32, live: u32) -> u32
    requires { before < most_cells }
    ensures { result ≡ cond (gives_back kind (suc before) oldest) before live }
{
    let own = before + 1;
    if kind == entry::NUMBER && own <= oldest {
        return before;
    }
    live
}

impl Counts {
    // Opens a call: its own cell is alive.
    #[tactic(auto, unfolding(crate::specs::Counts::call_opened))]
    pub fn open_call(&mut self)
        requires { self.old.live < most_cells }
        ensures { self.new ≡ call_opened self.old }
    {
        let own = self.live + 1;
        self.live = own;
        self.most = self.most.max(own);
        self.oldest = own;
    }

    // Closes a call, by how many cells were alive before it, the oldest before it, and the kind of what its visit ended with.
    #[tactic(auto, unfolding(crate::specs::Counts::call_closed))]
    pub fn close_call(&mut self, before: u32, oldest: u32, kind: u16)
        requires { before < most_cells }
        ensures { self.new ≡ call_closed before oldest kind self.old }
    {
        let since = self.oldest;
        self.live = live_after(kind, before, since, self.live);
        self.oldest = oldest.min(since);
    }

    // Notes a constructor that was remembered in cell `c`, where the cell is the formal's own.
    #[tactic(auto, unfolding(crate::specs::Counts::constructor_noted))]
    pub fn note_constructor(&mut self, own: bool, c: u16, kind: u16)
        ensures { self.new ≡ constructor_noted own c kind self.old }
    {
        if own && kind == entry::CONSTRUCTOR {
            self.oldest = self.oldest.min(u32::from(c));
        }
    }
}
