//! Laws of the definitions, each the contract of a function that does nothing.

ghost use Rattle.std.specs.Prelude.{◌≡◌, ◌≢◌, ℕ, ◌+◌, List, pos, [], ◌∷◌, codes};
ghost use Rattle.class_model.specs.declared.class.ClassDef.{ClassDef};
ghost use Rattle.run_state.specs.declared.config.Config.{Config};
ghost use Rattle.run_state.specs.State.{Running, Returned, Uncaught, InitFailed};
ghost use Rattle.run_state.specs.Unwinding.{arithmetic_exception, negative_array_size_exception};
ghost use Rattle.run_state.specs.Observation.{plain_at, tagged_at, plain_obs, tagged_obs};
ghost use Rattle.run_state.specs.Erasure.{erase, without_reports};
ghost use Rattle.run_state.specs.ExampleClasses.{letter_lists, shows, reports_of};
ghost use Rattle.run_state.specs.SumOfTwoBytes.{sum_set, sum_lists};
ghost use Rattle.run_state.specs.WorkedPrograms.{begins_k, fails_to_begin, divides_in_a_try, four_ints, long_on_ints, negative_size, moves_elements, calls_override, override_lists, override_reports};

/// Tags and reports change nothing else: without them the tagged machine is at each step where the plain machine is, for
/// every set, lists, main class and input. So its console and its ending are the plain machine's, step for step.
pub fn erasure()
    ensures forgets { (set : List ClassDef) (config : Config) (main input : List ℕ) (n : ℕ) → erase (tagged_at set config main input n) ≡ without_reports (plain_at set main input n) }
    ensures console { (set : List ClassDef) (config : Config) (main input : List ℕ) (n : ℕ) → (tagged_obs set config main input n).console ≡ (plain_obs set main input n).console }
    ensures ending { (set : List ClassDef) (config : Config) (main input : List ℕ) (n : ℕ) → (tagged_obs set config main input n).ending ≡ (plain_obs set main input n).ending }
{}

/// An ended run makes no further step, on either machine.
pub fn ended_runs_stay()
    ensures plain { (set : List ClassDef) (main input : List ℕ) (n k : ℕ) → (plain_at set main input n).ending ≢ Running → plain_at set main input (n + k) ≡ plain_at set main input n }
    ensures tagged { (set : List ClassDef) (config : Config) (main input : List ℕ) (n k : ℕ) → (tagged_at set config main input n).ending ≢ Running → tagged_at set config main input (n + k) ≡ tagged_at set config main input n }
{}

/// The sum of two bytes, where `read` is a source of tag 1 and `write` a sink: what the tagged machine shows after eight
/// steps and after seven, and what it shows where the input has one byte, so that the second read gives -1.
pub fn sum_of_two_bytes()
    ensures whole { tagged_obs sum_set sum_lists (codes "A") (0x41 ∷ 0x01 ∷ []) 8 ≡ shows (0x42 ∷ []) (reports_of (pos 1 ∷ [])) Returned }
    ensures before { tagged_obs sum_set sum_lists (codes "A") (0x41 ∷ 0x01 ∷ []) 7 ≡ shows (0x42 ∷ []) (reports_of (pos 1 ∷ [])) Running }
    ensures alone { tagged_obs sum_set sum_lists (codes "A") (0x41 ∷ []) 8 ≡ shows (0x40 ∷ []) (reports_of (pos 1 ∷ [])) Returned }
    ensures plain { plain_obs sum_set (codes "A") (0x41 ∷ 0x01 ∷ []) 8 ≡ shows (0x42 ∷ []) [] Returned }
{}

/// What small programs show: a class that begins before its method is called, and one whose initializer throws; a long
/// division by zero in a try; `dup2_x2` on four ints, and on a long on two ints; an array of a negative size;
/// `arraycopy` on one array; an overridden method as a sink.
pub fn worked_programs()
    ensures begins { tagged_obs begins_k letter_lists (codes "A") [] 12 ≡ shows (codes "kf") (reports_of (pos 0 ∷ pos 0 ∷ [])) Returned }
    ensures fails { tagged_obs fails_to_begin letter_lists (codes "A") [] 7 ≡ shows [] [] (InitFailed (codes "K") arithmetic_exception) }
    ensures catches { tagged_obs divides_in_a_try letter_lists (codes "A") [] 16 ≡ shows (codes "a") (reports_of (pos 1 ∷ [])) Returned }
    ensures ints { tagged_obs four_ints letter_lists (codes "A") [] 30 ≡ shows (codes "dcbadc") (reports_of (pos 8 ∷ pos 4 ∷ pos 2 ∷ pos 1 ∷ pos 8 ∷ pos 4 ∷ [])) Returned }
    ensures long { tagged_obs long_on_ints letter_lists (codes "A") [] 30 ≡ shows (codes "cbac") (reports_of (pos 4 ∷ pos 2 ∷ pos 1 ∷ pos 4 ∷ [])) Returned }
    ensures negative { tagged_obs negative_size letter_lists (codes "A") [] 6 ≡ shows [] [] (Uncaught negative_array_size_exception) }
    ensures moves { tagged_obs moves_elements letter_lists (codes "A") [] 60 ≡ shows (codes "aabc") (reports_of (pos 1 ∷ pos 1 ∷ pos 2 ∷ pos 4 ∷ [])) Returned }
    ensures overridden { tagged_obs calls_override override_lists (codes "A") [] 12 ≡ shows [] override_reports Returned }
{}
