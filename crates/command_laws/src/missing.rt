//! A law is the contract of a function with an empty body.
ghost use Rattle.std.specs.Prelude.{◌≡◌, ℕ, List, Err};
ghost use Rattle.op_msg.specs.declared.frame.Frame.{Frame};
ghost use Rattle.crud_parse.specs.declared.error.CrudErr.TheVariants.{Missing};
ghost use Rattle.client_cmd.specs.declared.error.CmdErr.TheVariants.{Parse};
ghost use Rattle.client_cmd.specs.Commands.{request_of};
ghost use Rattle.command_laws.specs.Missing.{IsElseRight};

/// That something is missing is told only where nothing else is wrong.
pub fn missing_comes_last()
    ensures { (wall : ℕ) (frame : Frame) (name : List ℕ)
        → request_of wall frame ≡ Err (Parse (Missing name)) → IsElseRight wall frame }
{}
