//! Laws of the layout of frames: what is written is read, what comes is carried, and what is carried goes on as it came.

ghost use Rattle.std.specs.Prelude.{◌≡◌, ◌++◌, ◌∷◌, ◌<◌, ℕ, List, [], length, take, drop, All, Some};
ghost use Rattle.lapin_values.specs.Data.{Data};
ghost use Rattle.lapin_methods.specs.declared.frame.ContentHeader.{ContentHeader as AnyHeader};
ghost use Rattle.lapin_methods.specs.declared.frame.Frame.{Frame as AnyFrame};
ghost use Rattle.lapin_methods.specs.declared.frame.Frame.TheVariants as frame;
ghost use Rattle.lapin_methods.specs.declared.method.Method.{Method as AnyMethod};
ghost use Rattle.lapin_fields.specs.Around.{around, wanted_behind};
ghost use Rattle.lapin_fields.specs.Fields.{counted};
ghost use Rattle.lapin_fields.specs.Opaque.{opaque};
ghost use Rattle.lapin_frames.specs.Carried.{carrying, arguments_of, IsCarried, MethodCarried, frame_again};
ghost use Rattle.lapin_frames.specs.FrameFits.{FrameFits, PropertiesFit};
ghost use Rattle.lapin_frames.specs.FrameReading.{read_at, whole};
ghost use Rattle.lapin_frames.specs.Frames.{bytes_of};
ghost use Rattle.lapin_frames.specs.Headers.{properties_bytes};
ghost use Rattle.lapin_frames.specs.MethodReading.{method_at};

use crate::frames::Read;

/// A frame that has room for what is in it is read from what was written of it, whatever follows, and nothing more is wanted: a carried frame as
/// itself (`read`), and any other as the one that carries what was written of its table and its properties (`again`).
#[tactic(auto, using(crate::proofs::FrameLaws::carried_back, crate::proofs::FrameLaws::frame_back, crate::proofs::FrameLaws::frame_whole))]
pub fn written_frames_are_read()
    ensures read { (f : AnyFrame) (rest : List ℕ) → FrameFits f → IsCarried f → read_at (bytes_of f ++ rest) ≡ Some (Read.Frame f (length (bytes_of f))) }
    ensures again { (f : AnyFrame) (rest : List ℕ) → FrameFits f → read_at (bytes_of f ++ rest) ≡ Some (Read.Frame (frame_again f) (length (bytes_of f))) }
    ensures whole { (f : AnyFrame) (rest : List ℕ) → FrameFits f → wanted_behind (bytes_of f ++ rest) ≡ 0 }
{}

/// What is read is carried: each frame, and each method by itself.
#[tactic(auto, using(crate::proofs::CarriedLaws::method_is_carried))]
pub fn what_is_read_is_carried()
    ensures frame { (bytes : List ℕ) (f : AnyFrame) (n : ℕ) → read_at bytes ≡ Some (Read.Frame f n) → IsCarried f }
    ensures method { (octets : List ℕ) (m : AnyMethod) → whole (method_at octets) ≡ Some m → MethodCarried m }
{}

/// Octets go through untouched. What is written of a content header that was read are the octets that came, but that the two that the standard
/// reserves, its weight, are 0; of a body they are exactly these. Of a method that has a table the octets of the table are, at the end of its
/// frame; beside them a field that the standard reserves is written as 0 or empty, a bit that no flag has as 0, and a text that is read whatever its
/// octets are as it was read.
#[tactic(auto, using(crate::proofs::CarriedLaws::arguments_untouched, crate::proofs::CarriedLaws::header_untouched, crate::proofs::CarriedLaws::body_untouched))]
pub fn octets_go_through_untouched()
    ensures arguments { (bytes : List ℕ) (c : ℕ) (m : AnyMethod) (n : ℕ) (t : List (List ℕ × Data)) → All (λ b. b < 256) bytes → read_at bytes ≡ Some (Read.Frame (frame.Method c m) n) → arguments_of m ≡ Some t
        → (octets : List ℕ) × (came : List ℕ) × (goes : List ℕ) × (t ≡ opaque octets) × (take n bytes ≡ came ++ counted octets ++ 206 ∷ []) × (bytes_of (frame.Method c m) ≡ goes ++ counted octets ++ 206 ∷ []) × (length came ≡ length goes) }
    ensures header { (bytes : List ℕ) (c : ℕ) (h : AnyHeader) (n : ℕ) → All (λ b. b < 256) bytes → read_at bytes ≡ Some (Read.Frame (frame.Header c h) n) → bytes_of (frame.Header c h) ≡ take 9 bytes ++ 0 ∷ 0 ∷ drop 11 (take n bytes) }
    ensures body { (bytes : List ℕ) (c : ℕ) (payload : List ℕ) (n : ℕ) → All (λ b. b < 256) bytes → read_at bytes ≡ Some (Read.Frame (frame.Body c payload) n) → bytes_of (frame.Body c payload) ≡ take n bytes }
{}

/// What is written of properties that carry a list is the list, whatever it is, and each list has room.
#[tactic(auto, using(crate::proofs::AgainLaws::list_untouched, crate::proofs::AgainLaws::list_fits))]
pub fn carried_lists_are_written()
    ensures list { (list : List ℕ) → properties_bytes (carrying list) ≡ list }
    ensures fits { (list : List ℕ) → PropertiesFit (carrying list) }
{}

/// A heartbeat is read from what was written of it.
#[tactic(auto, using(crate::proofs::FrameLaws::heartbeat_back))]
pub fn written_heartbeats_are_read()
    ensures { (rest : List ℕ) → read_at (around 8 0 [] ++ rest) ≡ Some (Read.Heartbeat 8) }
{}

/// What is read of a frame that is there as a whole is the same whatever follows it.
#[tactic(auto, using(crate::proofs::UsedLaws::read_more))]
pub fn what_follows_changes_nothing()
    ensures { (bytes more : List ℕ) → wanted_behind bytes ≡ 0 → read_at (bytes ++ more) ≡ read_at bytes }
{}
