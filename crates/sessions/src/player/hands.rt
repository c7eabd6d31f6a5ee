// The receipts in a player's hands: lent, put in, and given back.
ghost use Rattle.std.specs.Prelude.{◌≡◌, Some as There};
ghost use Rattle.std.specs.Option.{option_copied};
ghost use Rattle.std.specs.Borrow.{sem};
ghost use Rattle.sessions.specs.Lent.{LendsHand, in_the_hand};

use crate::call::{Hand, Hands};
use crate::receipt::Receipt;

// Puts a receipt in the place of another, or of none.
pub(crate) fn put(slot: &mut Option<Receipt>, receipt: Receipt)
    ensures { slot.new ≡ There receipt }
{
    if let Some(old) = slot.replace(receipt) {
        let Receipt { session: _ } = old;
    }
}

impl Hands {
    // The receipt in a hand, if there is one.
    pub(crate) fn held(&self, hand: Hand) -> Option<&Receipt>
        ensures { option_copied result ≡ in_the_hand hand self.now }
    {
        match hand {
            Hand::Own => self.own.as_ref(),
            Hand::Foreign => self.foreign.as_ref(),
        }
    }

    // The place of the receipt in a hand.
    pub(crate) fn slot(&mut self, hand: Hand) -> &mut Option<Receipt>
        ensures* writes_back { sem 𝓛 (LendsHand self.entry hand result) }
        ensures value { result.now ≡ in_the_hand hand self.old }
    {
        match hand {
            Hand::Own => &mut self.own,
            Hand::Foreign => &mut self.foreign,
        }
    }
}
