// What the turns of a family do.
ghost use Rattle.std.specs.Prelude.{◌≡◌, ◌<◌, slice_index};
ghost use Rattle.trial_faults.specs.Turns.{turn_number};

use trial_words::layout::{
    CHANGED, FRESH, LIVE, LIVE_REFUSED, Numbers, ORDERS, ORDERS_CHANGED, PLAY, READ_BACK, TURN,
};
use trial_words::words::get;

// A fresh store; the next batch of the list; a read of every address at a moment; a batch on a changed store; nothing any more; live reads
// and a copying step, after the batch of a list, or on a changed store that is refused; lists of work orders, after the batch of a list, or
// on a changed store.
#[derive(Clone, Copy, PartialEq, Eq)]
pub enum Turn {
    Fresh,
    Play,
    ReadBack,
    Changed,
    Ended,
    Live,
    LiveRefused,
    Orders,
    OrdersChanged,
}

impl From<Turn> for u32 {
    ghost from_gives = { λ turn n. n ≡ turn_number turn };

    fn from(turn: Turn) -> u32 {
        turn as u32
    }
}

impl Turn {
    // The turn that is next: none any more where the number is no turn's.
    pub fn next(w: &Numbers) -> Turn
        ensures { slice_index w.now 53 < 9 → turn_number result ≡ slice_index w.now 53 }
    {
        match get(w, TURN) {
            FRESH => Turn::Fresh,
            PLAY => Turn::Play,
            READ_BACK => Turn::ReadBack,
            CHANGED => Turn::Changed,
            LIVE => Turn::Live,
            LIVE_REFUSED => Turn::LiveRefused,
            ORDERS => Turn::Orders,
            ORDERS_CHANGED => Turn::OrdersChanged,
            _ => Turn::Ended,
        }
    }
}
