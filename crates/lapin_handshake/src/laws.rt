//! Laws of the opening: what a caller may rely on, whatever a broker says.

ghost use Rattle.std.specs.Prelude.{◌≡◌, ◌≤◌, ℕ, List, length, true, Ok};
ghost use Rattle.lapin_handshake.specs.declared.handshake.Handshake.{Handshake};
ghost use Rattle.lapin_handshake.specs.declared.handshake.Reply.{Reply};
ghost use Rattle.lapin_handshake.specs.declared.handshake.Reply.TheVariants as replies;
ghost use Rattle.lapin_handshake.specs.declared.mechanism.Mechanism.{Mechanism};
ghost use Rattle.lapin_handshake.specs.declared.mechanism.Mechanism.TheVariants as mechanisms;
ghost use Rattle.lapin_handshake.specs.declared.said.Said.{Said};
ghost use Rattle.lapin_handshake.specs.declared.said.Said.TheVariants as says;
ghost use Rattle.lapin_handshake.specs.Handshaking.{after, reply_to};
ghost use Rattle.lapin_handshake.specs.Mechanisms.{offers_of, word_of};
ghost use Rattle.lapin_handshake.specs.Replies.{Says, reply_bytes};
ghost use Rattle.lapin_handshake.specs.Words.{lists, locale_of};

/// Where EXTERNAL was asked for, it stays so (`stays`), no other mechanism is said (`alone`), and no reply tells a user or a password: its
/// octets are the same with any other ones (`untold`).
#[tactic(auto, using(crate::proofs::MechanismLaws::external_stays, crate::proofs::MechanismLaws::external_alone, crate::proofs::MechanismLaws::external_untold))]
pub fn external_tells_nobody()
    ensures stays { (h : Handshake) (s : Said) → h.mechanism ≡ mechanisms.External → (after h s).mechanism ≡ mechanisms.External }
    ensures alone { (h : Handshake) (s : Said) (r : Reply) → h.mechanism ≡ mechanisms.External → reply_to h s ≡ Ok r → Says mechanisms.External r }
    ensures untold { (h : Handshake) (s : Said) (r : Reply) (user password other secret vhost pairs locale : List ℕ) → h.mechanism ≡ mechanisms.External → reply_to h s ≡ Ok r → reply_bytes (record { user = user; password = password; vhost = vhost; pairs = pairs }) locale r ≡ reply_bytes (record { user = other; password = secret; vhost = vhost; pairs = pairs }) locale r }
{}

/// What is said in answer to a start is one of the words of its list.
#[tactic(auto, using(crate::proofs::MechanismLaws::said_is_listed))]
pub fn said_mechanisms_are_listed()
    ensures { (h : Handshake) (major minor : ℕ) (list : List ℕ) (m : Mechanism) → reply_to h (says.Start major minor (offers_of list)) ≡ Ok (replies.StartOk m) → lists list (word_of m) ≡ true }
{}

/// The locale that is said has room in a short text, whatever the broker's list is.
#[tactic(auto, using(crate::proofs::MechanismLaws::locale_short))]
pub fn said_locales_have_room()
    ensures { (list : List ℕ) → length (locale_of list) ≤ 255 }
{}
