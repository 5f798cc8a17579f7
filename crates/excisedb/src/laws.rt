//! The status that each cause ends with: laws of how calls end.
ghost use Rattle.std.specs.Prelude.{◌≡◌, ◌≢◌, ℕ, List, Some, None};
ghost use Rattle.xdb_engine.specs.Files.{AreTold};
ghost use Rattle.xdb_script.specs.Defects.{script_read};
ghost use Rattle.xdb_script.specs.declared.error.Why.{Why};
ghost use Rattle.xdb_script.specs.declared.form.ScriptForm.TheVariants.{Run};
ghost use Rattle.excisedb.specs.Causes.{Call, OrFails, OrReadFails, bytes_read};
ghost use Rattle.excisedb.specs.Ends.{run_words, refused};
ghost use Rattle.excisedb.specs.declared.status.Status.TheVariants.{Done, Words, Script};

use xdb_device::Device;

/// Words other than the command are refused.
pub fn other_words_are_refused<D: Device>()
    ensures { (call : Call (AreTold D.File.bytes)) → call.words ≢ run_words
        → OrFails Words call.status }
{}

/// The command isn't.
pub fn the_command_is_known<D: Device>()
    ensures { (call : Call (AreTold D.File.bytes)) → call.words ≡ run_words → call.status ≢ Words }
{}

/// A script with a defect, or with a verb that isn't built, is refused.
pub fn bad_scripts_are_refused<D: Device>()
    ensures { (call : Call (AreTold D.File.bytes)) (bytes : List ℕ) (defect : ℕ × Why)
        → call.words ≡ run_words → call.left ≡ Some bytes
        → refused (script_read Run (bytes_read bytes)) ≡ Some defect → OrReadFails Script call.status }
{}

/// Every other script is run.
pub fn other_scripts_are_run<D: Device>()
    ensures { (call : Call (AreTold D.File.bytes)) (bytes : List ℕ)
        → call.words ≡ run_words → call.left ≡ Some bytes
        → refused (script_read Run (bytes_read bytes)) ≡ None → OrReadFails Done call.status }
{}
