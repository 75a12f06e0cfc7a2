//! A law is the contract of a function with an empty body.
ghost use Rattle.std.specs.Prelude.{◌≡◌, ◌++◌, ◌∷◌, [], ℕ, List, Bool, Some, None, true, false};
ghost use Rattle.bson_core.specs.declared.value.Value.{Value};
ghost use Rattle.bson_core.specs.Fields.{Document};
ghost use Rattle.op_msg.specs.Message.{Sequence};
ghost use Rattle.op_msg.specs.declared.frame.Frame.{Frame};
ghost use Rattle.command_parse.specs.declared.command.Command.{Command};
ghost use Rattle.command_parse.specs.declared.command.Command.TheVariants.{Hello};
ghost use Rattle.command_parse.specs.declared.rules.Batch.{Batch};
ghost use Rattle.command_parse.specs.Checks.{is_among};
ghost use Rattle.command_parse.specs.Commands.{list_name, command_named, common_rule};
ghost use Rattle.client_cmd.specs.Commands.{request_of};
ghost use Rattle.command_laws.specs.Fields.{names_of, with_body, with_sections, list_of, is_ignored, free_names, own_free_names};

/// Of one name the first counts: a field of the body after another of its name changes nothing of
/// what is asked, nor does a section after a field or a section of its name.
pub fn the_first_of_a_name_counts()
    ensures field { (wall : ℕ) (frame : Frame) (front back : Document) (field : List ℕ × Value)
        → is_among field.0 (names_of front) ≡ true
        → request_of wall (with_body frame (front ++ field ∷ back))
        ≡ request_of wall (with_body frame (front ++ back)) }
    ensures section { (wall : ℕ) (frame : Frame) (front back : List Sequence) (section : Sequence)
        → is_among section.0 (names_of frame.body ++ names_of front) ≡ true
        → request_of wall (with_sections frame (front ++ section ∷ back))
        ≡ request_of wall (with_sections frame (front ++ back)) }
{}

/// A field that a command takes no notice of changes nothing of what is asked, wherever it stands
/// after the command's name. A section of that name is refused, and it isn't looked at where a
/// field stands before it; so there is none here. Such names are those that every command passes
/// over, and a few of each; a hello passes over all but the common ones.
pub fn what_is_ignored_changes_nothing()
    ensures nothing { (wall : ℕ) (frame : Frame) (c : Command) (first : List ℕ × Value)
        (front back : Document) (field : List ℕ × Value)
        → command_named first.0 ≡ Some c → is_ignored c field.0 ≡ true
        → is_among field.0 (names_of frame.seqs) ≡ false
        → request_of wall (with_body frame (first ∷ front ++ field ∷ back))
        ≡ request_of wall (with_body frame (first ∷ front ++ back)) }
    ensures names { (c : Command) (name : List ℕ)
        → is_among name (free_names ++ own_free_names c) ≡ true → is_ignored c name ≡ true }
    ensures hello { (old_name : Bool) (name : List ℕ) → common_rule name ≡ None
        → is_ignored (Hello old_name) name ≡ true }
{}

/// A list of documents as the first section is read as the list at the end of the body is.
pub fn a_section_is_a_list()
    ensures { (wall : ℕ) (frame : Frame) (first : List ℕ × Value) (more : Document) (batch : Batch)
        (docs : List Document)
        → request_of wall (with_sections (with_body frame (first ∷ more))
        ((list_name batch, docs) ∷ frame.seqs)) ≡ request_of wall (with_body frame
        ((first ∷ more) ++ (list_name batch, list_of docs) ∷ [])) }
{}
