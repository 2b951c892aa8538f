//! What the lines of a list say.
ghost use Rattle.std.specs.Prelude.{◌≡◌, ◌^◌, ◌<◌, ℕ, Ok};
ghost use Rattle.news_types.specs.declared.command.Command.{Command};
ghost use Rattle.news_types.specs.Names.{Bytes};
ghost use Rattle.news_types.specs.FitsCommands.{FitsCommand};
ghost use Rattle.news_types.specs.History.{History};
ghost use Rattle.byte_formats.specs.Spelling.{IsName};
ghost use Rattle.entry_codec.specs.Formed.{IsFormedCommand};
ghost use Rattle.desk_lines.specs.declared.asked.Asked.TheVariants as asked;
ghost use Rattle.desk_lines.specs.Lines.{line};
ghost use Rattle.told_objects.specs.Members.{written};
ghost use Rattle.told_entries.specs.Commands.{request_members};
ghost use Rattle.told_entries.specs.Entries.{audit, IsList};

/// A request is told as a line that is read as that request, and no two lists are told alike.
///
/// Each request that a program can hold, within the limits of its command, has a line that is no longer than a line may be,
/// and asks for just that. It states this and does nothing.
#[tactic(auto, using(crate::proofs::LineLaw::request_line, crate::proofs::Audits::one_list))]
pub fn audit_law()
    ensures request { (caller : Bytes) (number : ℕ) (command : Command)
        → IsName caller → number < 2 ^ 64 → FitsCommand command → IsFormedCommand command
        → line (written (request_members caller number command)) ≡ Ok (asked.Request caller number command) }
    ensures one { (g h : History) → IsList g → IsList h → audit 0 g ≡ audit 0 h → g ≡ h }
{}
