// Each law is proved by a function with an empty body.
ghost use Rattle.std.specs.Prelude.{◌≡◌, ◌↔◌, ◌+◌, ◌≤◌, ◌^◌, List, ℕ, Option, Some, length, take, None};
ghost use Rattle.round_trips.specs.Exportable.{IsExportable, IsNamedByNumber};
ghost use Rattle.round_trips.specs.ReadAs.{IsReadAs};
ghost use Rattle.branch_proof.specs.Leaves.{IsProved};
ghost use Rattle.branch_proof.specs.declared.verdict.ProofVerdict.TheVariants.{Yes};
ghost use Rattle.certificates.specs.declared.proof.Claim.{Claim as ClaimValue};
ghost use Rattle.certificates.specs.ProofSays.{IsProvedTrueOf};
ghost use Rattle.scaled_program.specs.ExportedProgram.{mps_of};
ghost use Rattle.problems.specs.FileProblem.{problem_of};
ghost use Rattle.nl_model.specs.FoldFaults.{fold_fault};
ghost use Rattle.nl_model.specs.LinearFile.{linear_of};
ghost use Rattle.name_files.specs.Renamed.{named};
ghost use Rattle.nl_model.specs.File.{File};
ghost use Rattle.nl_model.specs.Rules.{IsFile};
ghost use Rattle.nl_segments.specs.Grammar.{NlValue};
ghost use Rattle.fixed_mps.specs.Reader.{IsFixedText};
ghost use Rattle.mps_reader.specs.Reader.{IsMpsText};
ghost use Rattle.mps_reader.specs.Written.{mps_text};
ghost use Rattle.round_trips.specs.Writable.{IsText};
ghost use Rattle.nl_segments.specs.Reader.{IsNl};
ghost use Rattle.nl_writer.specs.Written.{nl_text};
ghost use Rattle.sol_files.specs.Reader.{IsSol};
ghost use Rattle.sol_files.specs.Written.{sol_text};
ghost use Rattle.text_base.specs.Desk.{Texts};
ghost use Rattle.bridge_tool.specs.Commands.{ComesTo};
ghost use Rattle.bridge_tool.specs.Export.{IsExportMeant, IsExported, MeansTheFile, export_told};
ghost use Rattle.bridge_tool.specs.ByText.{IsByText, IsWritingByText};
ghost use Rattle.bridge_tool.specs.Import.{CannotBeImported, IsImportedAs, MeansTheProgram};
ghost use Rattle.bridge_tool.specs.OneFile.{IsMpsMeant, IsSolMeant, import_row, mps_row, nl_row, row_told, sol_row};
ghost use Rattle.bridge_tool.specs.declared.verify_mps.Layout.TheVariants.{Fixed, Free};
ghost use Rattle.command_parts.specs.NameLists.{AreListed, column_counts, row_counts};
ghost use Rattle.bridge_tool.specs.Instances.{InstancesAreSaid, InstancesAreWritable};
ghost use Rattle.bridge_tool.specs.NamedExport.{IsNamedExport, Named};
ghost use Rattle.command_core.specs.Outcome.{Outcome};
ghost use Rattle.command_parts.specs.Refusal.{HasTextRefusal, IsFixedRefused, IsMpsRefused, IsSolRefused};
ghost use Rattle.command_parts.specs.Stages.{CannotBeExported, fold_steps};
ghost use Rattle.command_core.specs.declared.transfer.TheConstants.{LIMIT};

/// Words come to exactly one outcome, whatever texts a desk has.
#[tactic(auto, using(crate::proofs::Headline::some_outcome, crate::proofs::Headline::one_outcome))]
pub fn one_outcome()
    ensures some { (texts : Option Texts) (words : List (List ℕ))
        → (outcome : Outcome) × ComesTo texts words outcome }
    ensures one { (texts : Option Texts) (words : List (List ℕ)) (a b : Outcome)
        → ComesTo texts words a → ComesTo texts words b → a ≡ b }
{}

/// What a command of one file comes to, why it refuses it, which steps are counted and what a 0
/// means, by the text of that file alone.
pub fn commands_by_text()
    ensures export { (texts : Texts) (file text : List ℕ) (k : ℕ) → texts file ≡ Some text
        → IsByText IsNl HasTextRefusal (λ nl. IsExported nl k) (λ nl. CannotBeExported nl k)
        (λ nl old new. new ≤ old + fold_steps nl k) (λ nl. IsExportMeant nl k) (take LIMIT text)
        (export_told file k texts) }
    ensures nl { (texts : Texts) (file text : List ℕ) → texts file ≡ Some text
        → IsWritingByText IsNl HasTextRefusal (λ nl. nl_text nl.file)
        (λ nl. IsText nl.file (nl_text nl.file)) (take LIMIT text) (row_told nl_row file texts) }
    ensures mps { (texts : Texts) (file text : List ℕ) → texts file ≡ Some text
        → IsWritingByText IsMpsText IsMpsRefused mps_text IsMpsMeant (take LIMIT text)
        (row_told (mps_row Free) file texts) }
    ensures fixed { (texts : Texts) (file text : List ℕ) → texts file ≡ Some text
        → IsWritingByText IsFixedText IsFixedRefused mps_text IsMpsMeant (take LIMIT text)
        (row_told (mps_row Fixed) file texts) }
    ensures sol { (texts : Texts) (file text : List ℕ) → texts file ≡ Some text
        → IsWritingByText IsSol (IsSolRefused 1) sol_text IsSolMeant (take LIMIT text)
        (row_told sol_row file texts) }
    ensures import { (texts : Texts) (file text : List ℕ) → texts file ≡ Some text
        → IsByText IsMpsText IsMpsRefused IsImportedAs CannotBeImported (λ m old new. new ≡ old)
        MeansTheProgram (take LIMIT text) (row_told import_row file texts) }
{}

/// The program of a file that is exported means what the file means.
pub fn programs_mean_their_files()
    ensures { (nl : NlValue) (k : ℕ) (bytes : List ℕ) (e : IsExported nl k bytes) → IsFile nl.file
        → MeansTheFile nl.file k (mps_of e.program) }
{}

/// The linear program of a file is named by number; where the file folds, it is within the limits
/// of what an export is read by.
pub fn files_are_exportable()
    ensures named { (f : File) (k : ℕ) → IsFile f → IsNamedByNumber (linear_of f k) }
    ensures within { (f : File) (k : ℕ) → IsFile f → fold_fault f k ≡ None
        → IsExportable (linear_of f k) }
{}

/// What is exported of a text is read as the program that was exported.
pub fn exports_are_read_back()
    ensures { (text : List ℕ) (nl : NlValue) → IsNl text nl → (k : ℕ) (bytes : List ℕ)
        (e : IsExported nl k bytes) → IsReadAs bytes (mps_of e.program) }
{}

/// What is exported with the names of two lists is read as the program with these names, where the
/// bytes are within the limit of a text.
pub fn named_exports_are_read_back()
    ensures { (text rows columns : List ℕ) (n : Named) → IsNl text n.nl
        → AreListed (row_counts n.nl.file) rows n.rows
        → AreListed (column_counts n.nl.file) columns n.columns
        → (bytes : List ℕ) (e : IsNamedExport n bytes) → length bytes ≤ 2 ^ 31
        → IsReadAs bytes (named (mps_of e.program) n.rows n.columns) }
{}

/// A file is exported with the names of two lists exactly where it is exported without them.
pub fn names_change_no_verdict()
    ensures { (n : Named) → ((bytes : List ℕ) × IsExported n.nl n.objective bytes)
        ↔ ((bytes : List ℕ) × IsNamedExport n bytes) }
{}

/// The instance of a seed and a size of at most 20,000 can be written, whatever the seed.
pub fn instances_are_writable()
    ensures { InstancesAreWritable }
{}

/// What is written of the instance of a seed and a size is a text of the profile, without faults,
/// that says the instance.
pub fn instances_are_said()
    ensures { InstancesAreSaid }
{}

/// What a yes shows of the linear program of a file without fold faults, it shows of the file.
#[tactic(auto, using(crate::proofs::ProofClaims::claim_true))]
pub fn claims_are_of_files()
    ensures { (f : File) (k : ℕ) → IsFile f → fold_fault f k ≡ None → (claim : ClaimValue)
        → IsProved (linear_of f k) claim Yes → IsProvedTrueOf (problem_of f k) claim }
{}
