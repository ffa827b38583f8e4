//! The laws of the rule table with what is known of columns: each is the contract of a function with an empty body.

ghost use Rattle.vx_exec_laws.specs.DerivedSound.{AllowsMore, DerivedSound, DerivedSoundAtRoot, StreamsMeet};

/// What the first rule table allows, this one does.
pub fn derived_table_allows_more()
    ensures { AllowsMore }
{}

/// In every run the rows of each stream meet the facts of their node.
pub fn streams_meet_their_facts()
    ensures { StreamsMeet }
{}

/// In every run of a plan that the table allows the claim of every node holds.
pub fn derived_table_is_sound()
    ensures { DerivedSound }
{}

/// The root delivers the serial rows, and their list where a total order is claimed.
pub fn derived_table_is_sound_at_root()
    ensures { DerivedSoundAtRoot }
{}
