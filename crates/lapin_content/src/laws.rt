//! Laws of contents, each on a function with an empty body: what they say holds of every history and every table.

ghost use Rattle.std.specs.Prelude.{◌≡◌, ℕ, ◌+◌, ◌-◌, List, [], ◌∷◌, ◌++◌, Some, Ok, slice_get};
ghost use Rattle.lapin_methods.specs.declared.frame.ContentHeader.{ContentHeader as AHeader};
ghost use Rattle.lapin_content.specs.declared.start.Whole.{Whole as AWhole};
ghost use Rattle.lapin_content.specs.Contents.{heard_header, heard_body};
ghost use Rattle.lapin_content.specs.Channels.{Channels, expected_on, after_mark};
ghost use Rattle.lapin_content.specs.Marks.{ContentMark as AMark};
ghost use Rattle.lapin_content.specs.Readings.{Content, contents, came};
ghost use Rattle.lapin_content.specs.Follows.{Follows, Fits, IsLastBody, IsEmpty};

/// New contents are what the history without a mark says.
pub fn nothing_follows()
    ensures { Follows [] [] }
{}

/// Contents that are what the marks of a history say are so for one more mark, whichever comes.
pub fn machine_follows()
    ensures { (ms : List AMark) (all : Channels) (m : AMark) → Follows ms all → Follows (ms ++ m ∷ []) (after_mark all m) }
{}

/// No content gets more bytes than its header announced: the bytes that came and those that are left are what it announced.
pub fn bytes_add_up()
    ensures fits { (c k : ℕ) (ms : List AMark) (x : Content) → slice_get (contents c ms) k ≡ Some x → Fits x.header x.bodies }
    ensures sum { (c k : ℕ) (ms : List AMark) (x : Content) (h : AHeader) → slice_get (contents c ms) k ≡ Some x → x.header ≡ Some h → came x.bodies + (h.body_size - came x.bodies) ≡ h.body_size }
{}

/// A message that becomes whole by a body is what began its content, its header's properties, and its bodies joined in order;
/// it has as many bytes as the header announced.
pub fn message_by_body()
    ensures { (ms : List AMark) (all : Channels) (c : ℕ) (bytes : List ℕ) (w : AWhole) → Follows ms all → heard_body bytes (expected_on c all) ≡ Ok (Some w) → IsLastBody c ms bytes w }
{}

/// A message that is whole by its header has no byte, as the header announced.
pub fn message_by_header()
    ensures { (ms : List AMark) (all : Channels) (c : ℕ) (h : AHeader) (w : AWhole) → Follows ms all → heard_header h (expected_on c all) ≡ Ok (Some w) → IsEmpty c ms h w }
{}
