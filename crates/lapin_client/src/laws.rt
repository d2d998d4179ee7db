//! What follows from the words of the contracts, as laws on empty bodies.

ghost use Rattle.std.specs.Prelude.{◌≡◌, ◌<◌, ◌^◌, ℕ, List, [], length, true, false};
ghost use Rattle.lapin_client.specs.declared.client.Client.{Client as AClient};
ghost use Rattle.lapin_client.specs.Closes.{close_on, last_close};
ghost use Rattle.lapin_client.specs.Parcels.{is_whole};
ghost use Rattle.lapin_client.specs.Receiving.{Comes};
ghost use Rattle.lapin_client.specs.Sending.{IsIdle};
ghost use Rattle.lapin_client.specs.Taken.{Took};
ghost use Rattle.lapin_frames.specs.Carried.{carrying};
ghost use Rattle.lapin_types.specs.declared.message.Delivery.{Delivery as ADelivery};
ghost use Rattle.lapin_types.specs.Types.{Frame as AFrame};
ghost use Rattle.lapin_machine.specs.World.{World};

/// Where a request with which no publish may begin hands nothing out, no publish has begun and no method waits: so a frame of the
/// broker is handed in only once a begun publish has left whole.
#[tactic(auto, using(crate::proofs::Idle::idle))]
pub fn nothing_has_begun_in_an_idle_session()
    ensures { (w : World) → IsIdle false w → (w.wire.rest ≡ []) × (w.wire.methods ≡ []) }
{}

/// The frames that a client took, one after the other, determine what it has as the broker's last close of each channel, and of the
/// connection as channel 0: the last one among them, and where none of them says one, the one that it had before.
#[tactic(auto, using(crate::proofs::Taken::last_is_kept))]
pub fn the_last_close_is_kept()
    ensures { (n : ℕ) (c d : AClient) → Comes n c d → (fs : List AFrame) × Took n fs c d × ((ch : ℕ) → close_on ch d ≡ last_close ch fs (close_on ch c)) }
{}

/// A message whose list of properties came as octets lies as it is told, so that no memory is wanted to tell it: it is not lost, and the client
/// goes on.
#[tactic(auto, using(crate::proofs::Lists::carried_whole))]
pub fn what_came_as_octets_lies_as_it_is_told()
    ensures { (x : ADelivery) (list : List ℕ) → x.properties ≡ carrying list → length list < 2 ^ 32 → is_whole x ≡ true }
{}
