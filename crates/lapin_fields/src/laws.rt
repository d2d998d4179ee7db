//! Laws of the layout: what is written is read, and what is wanted is wanted.

ghost use Rattle.std.specs.Prelude.{◌≡◌, ◌++◌, ◌∷◌, ◌<◌, ◌^◌, Bool, true, ℕ, List, length, All, Some, None};
ghost use Rattle.std.specs.Str.{is_utf8};
ghost use Rattle.lapin_values.specs.Data.{Data};
ghost use Rattle.lapin_fields.specs.Around.{around, around_at, and_more, wanted_behind};
ghost use Rattle.lapin_fields.specs.Fields.{text, counted, bits};
ghost use Rattle.lapin_fields.specs.Fits.{TextFits, StringFits, TableFits, ValueFits};
ghost use Rattle.lapin_fields.specs.Opaque.{carried, opaque, opaque_at, table_octets, arguments_bytes, ArgumentsFit};
ghost use Rattle.lapin_fields.specs.Reading.{readable, reply_at, text_at, counted_at, bit_at};
ghost use Rattle.lapin_fields.specs.ValueReading.{table_at, value_at};
ghost use Rattle.lapin_fields.specs.Values.{table_bytes, value_bytes};

/// A short text and a long string that have room are read behind what was written of them, and the text as a reply text too.
#[tactic(auto, using(crate::proofs::ReadingLaws::text_back, crate::proofs::ReadingLaws::reply_back, crate::proofs::ReadingLaws::counted_back))]
pub fn written_texts_are_read()
    ensures text { (t rest : List ℕ) → TextFits t → text_at (text t ++ rest) ≡ Some (t, rest) }
    ensures reply { (t rest : List ℕ) → TextFits t → reply_at (text t ++ rest) ≡ Some (t, rest) }
    ensures string { (s rest : List ℕ) → StringFits s → counted_at (counted s ++ rest) ≡ Some (s, rest) }
{}

/// Whatever octets a reply text has, what is read of it is a text of as many.
#[tactic(auto, using(crate::proofs::ReadableLaws::readable_long, crate::proofs::ReadableLaws::readable_utf8))]
pub fn reply_texts_are_texts()
    ensures length { (s : List ℕ) → length (readable s) ≡ length s }
    ensures utf8 { (s : List ℕ) → is_utf8 (readable s) ≡ true }
{}

/// A value and a table that have room are read from what was written of them.
#[tactic(auto, using(crate::proofs::ValueLaws::value_back, crate::proofs::ValueLaws::table_back))]
pub fn written_values_are_read()
    ensures value { (level : ℕ) (v : Data) (rest : List ℕ) → ValueFits level v → value_at level (value_bytes v ++ rest) ≡ Some (v, rest) }
    ensures table { (ps : List (List ℕ × Data)) (rest : List ℕ) → TableFits ps → table_at (table_bytes ps ++ rest) ≡ Some (ps, rest) }
{}

/// A table of arguments is read as the octets that were written of it (`read`): those that it carries, whatever they are (`octets`), and of a table
/// that carries none those of its values (`values`).
#[tactic(auto, using(crate::proofs::OpaqueLaws::arguments_back, crate::proofs::OpaqueLaws::octets_again, crate::proofs::OpaqueLaws::by_values))]
pub fn carried_octets_are_read()
    ensures read { (t : List (List ℕ × Data)) (rest : List ℕ) → ArgumentsFit t → opaque_at (arguments_bytes t ++ rest) ≡ Some (opaque (table_octets t), rest) }
    ensures octets { (os : List ℕ) → table_octets (opaque os) ≡ os }
    ensures values { (t : List (List ℕ × Data)) → carried t ≡ None → arguments_bytes t ≡ table_bytes t }
{}

/// A payload is read from what was written around it.
#[tactic(auto, using(crate::proofs::ReadingLaws::around_back))]
pub fn written_payload_is_read()
    ensures { (kind channel : ℕ) (payload rest : List ℕ) → channel < 2 ^ 16 → StringFits payload → around_at (around kind channel payload ++ rest) ≡ Some ((kind, channel, payload), rest) }
{}

/// What was read, of octets, came as it would be written: a long string behind its length, a table of arguments, and a payload with what stands
/// around it.
#[tactic(auto, using(crate::proofs::CameLaws::counted_came, crate::proofs::CameLaws::opaque_came, crate::proofs::CameLaws::around_came))]
pub fn what_is_read_came_so()
    ensures string { (bytes s rest : List ℕ) → All (λ b. b < 256) bytes → counted_at bytes ≡ Some (s, rest) → bytes ≡ counted s ++ rest }
    ensures arguments { (bytes : List ℕ) (t : List (List ℕ × Data)) (rest : List ℕ) → All (λ b. b < 256) bytes → opaque_at bytes ≡ Some (t, rest) → bytes ≡ arguments_bytes t ++ rest }
    ensures around { (bytes : List ℕ) (x : (ℕ × ℕ × List ℕ) × List ℕ) → All (λ b. b < 256) bytes → around_at bytes ≡ Some x → bytes ≡ around x.0.0 x.0.1 x.0.2 ++ x.1 }
{}

/// Flags that were packed into an octet, at most eight, are the bits of it.
pub fn packed_flags_are_bits()
    ensures first { (a : Bool) (bs : List Bool) → bit_at 1 (bits (a ∷ bs)) ≡ a }
    ensures second { (a b : Bool) (bs : List Bool) → bit_at 2 (bits (a ∷ b ∷ bs)) ≡ b }
    ensures third { (a b c : Bool) (bs : List Bool) → bit_at 4 (bits (a ∷ b ∷ c ∷ bs)) ≡ c }
    ensures fourth { (a b c d : Bool) (bs : List Bool) → bit_at 8 (bits (a ∷ b ∷ c ∷ d ∷ bs)) ≡ d }
    ensures fifth { (a b c d e : Bool) (bs : List Bool) → bit_at 16 (bits (a ∷ b ∷ c ∷ d ∷ e ∷ bs)) ≡ e }
    ensures sixth { (a b c d e f : Bool) (bs : List Bool) → bit_at 32 (bits (a ∷ b ∷ c ∷ d ∷ e ∷ f ∷ bs)) ≡ f }
    ensures seventh { (a b c d e f g : Bool) (bs : List Bool) → bit_at 64 (bits (a ∷ b ∷ c ∷ d ∷ e ∷ f ∷ g ∷ bs)) ≡ g }
    ensures eighth { (a b c d e f g h : Bool) (bs : List Bool) → bit_at 128 (bits (a ∷ b ∷ c ∷ d ∷ e ∷ f ∷ g ∷ h ∷ bs)) ≡ h }
{}

/// A beginning of a frame stays one until it has at least as many bytes more as are wanted (`part`). Where nothing is wanted, the frame is
/// there as a whole, and what follows changes neither that (`whole`) nor what is found (`found`).
pub fn what_is_wanted_is_wanted()
    ensures part { (bytes more : List ℕ) → length more < wanted_behind bytes → 0 < wanted_behind (bytes ++ more) }
    ensures whole { (bytes more : List ℕ) → wanted_behind bytes ≡ 0 → wanted_behind (bytes ++ more) ≡ 0 }
    ensures found { (bytes more : List ℕ) → wanted_behind bytes ≡ 0 → around_at (bytes ++ more) ≡ and_more more (around_at bytes) }
{}
