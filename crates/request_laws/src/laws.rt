//! A law is the contract of a function with an empty body.
ghost use Rattle.std.specs.Prelude.{◌≡◌, ◌<◌, ◌^◌, All, List, Ok, ℕ, slice_index};
ghost use Rattle.bson_core.specs.Fields.{Document};
ghost use Rattle.bson_core.specs.Grammar.{Reads};
ghost use Rattle.op_msg.specs.Reading.{frame_of};
ghost use Rattle.op_msg.specs.declared.frame.Frame.{Frame};
ghost use Rattle.txn_types.specs.declared.operation.Op.{Op};
ghost use Rattle.command_parse.specs.Operations.{op_of};
ghost use Rattle.command_parse.specs.declared.command.Statement.{Statement};
ghost use Rattle.txn_semantics.specs.Meaning.{eval, writes_of};
ghost use Rattle.txn_semantics.specs.Rows.{Row};
ghost use Rattle.request_laws.specs.Fitting.{DocFits, OpFits, RowFits, WriteFits};

/// A document that was read can be written: each field that its type has, and 100 levels at most.
pub fn what_is_read_can_be_written()
    ensures { (doc : Document) (bytes : List ℕ) → Reads 100 doc bytes → DocFits doc }
{}

/// What a statement makes of rows that fit, fits.
pub fn what_is_written_fits()
    ensures { (op : Op) (rows : List Row) → OpFits op → All RowFits rows
        → All WriteFits (writes_of (eval op rows)) }
{}

/// The operation that a message of bytes asks for, as a statement, fits.
pub fn what_is_asked_fits()
    ensures { (statement : Statement) (bytes : List ℕ) (frame : Frame) (op : Op)
        → ((place : ℕ) → slice_index bytes place < 2 ^ 8) → frame_of bytes ≡ Ok frame
        → op_of statement frame ≡ Ok op → OpFits op }
{}
