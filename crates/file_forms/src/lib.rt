//! The form of a line of a process file, from its words alone.
//!
//! There is one set of forms each for declarations, lines of a type, lines of a phase and lines of a group of operations.
//! Names and texts may have any length here.
#![tactic(auto)]

mod declarations;
mod operation_lines;
mod pieces;
mod script_lines;
mod type_lines;

pub use declarations::{Declaration, RoleWords, begins_reserved, declaration_line, header};
pub use operation_lines::{NamedGap, OperationLine, operation_line};
pub use pieces::RoleWord;
pub use script_lines::{Deed, ScriptLine, WriteWords, script_line};
pub use type_lines::{TypeLine, type_line};
