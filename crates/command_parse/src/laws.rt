//! Laws of the definitions: a law is the contract of a function that changes nothing and gives
//! nothing.
ghost use Rattle.std.specs.Prelude.{◌≡◌, Ok};
ghost use Rattle.op_msg.specs.declared.frame.Frame.{Frame as AnyFrame};
ghost use Rattle.txn_types.specs.declared.operation.Op.{Op as AnyOp};
ghost use Rattle.command_parse.specs.declared.command.Statement.{Statement as AnyStatement};
ghost use Rattle.command_parse.specs.Operations.{op_of};
ghost use Rattle.command_parse.specs.Places.{HasPlaces};

/// The items of an operation stand at 0, 1, 2 and so on, and they are at most 100,000.
pub fn items_have_places()
    ensures { (s : AnyStatement) (frame : AnyFrame) (o : AnyOp) → op_of s frame ≡ Ok o
        → HasPlaces o }
{}
