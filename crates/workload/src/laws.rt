//! What holds of generated commands and of their summary.

ghost use Rattle.std.specs.Prelude.{◌≡◌, ◌+◌, ◌<◌, ◌∷◌, [], ℕ, List, length};
ghost use Rattle.std.specs.FinMap.{empty};
ghost use Rattle.key_slot.specs.Record.{Record};
ghost use Rattle.map_model.specs.ArrayState.{ArrayState, plain, opened_state};
ghost use Rattle.map_model.specs.Image.{Represents};
ghost use Rattle.command_text.specs.Answers.{answers, range_lines};
ghost use Rattle.command_text.specs.ArraySession.{array_step};
ghost use Rattle.command_text.specs.declared.command.Command.{Command};
ghost use Rattle.command_text.specs.declared.reply.Reply.{Reply};
ghost use Rattle.command_text.specs.declared.reply.Reply.TheVariants.{End};
ghost use Rattle.workload.specs.declared.summary.Summary.{Summary};
ghost use Rattle.workload.specs.Generator.{next_draw, draw, command_by, command_numbered};
ghost use Rattle.workload.specs.Summaries.{summary_of, counted, CountsBy, sized, Fits};
ghost use Rattle.workload.specs.Generation.{gen_layout, empty_state, gen_state, gen_counts, gen_summary, HasRun};

/// A law: what one command more makes of the generator, of the store and of the counts.
pub fn summaries_grow()
    // The generator begins with the seed, and each step gives the next number, of which the next command is made.
    ensures seed { (seed : ℕ) → draw seed 0 ≡ seed }
    ensures drawn { (count seed : ℕ) → draw seed (count + 1) ≡ next_draw (draw seed count) }
    ensures command { (count seed : ℕ) → command_numbered seed (count + 1) ≡ command_by (next_draw (draw seed count)) (count +
        1) }
    // The store begins empty, and each command changes it as the array's definition says.
    ensures empty { (seed : ℕ) → gen_state 0 seed ≡ empty_state }
    ensures state { (count seed : ℕ) → gen_state (count + 1) seed ≡
        array_step gen_layout (gen_state count seed) (command_numbered seed (count + 1)) }
    // The counts begin at 0, and each command is counted by the lines of its reply.
    ensures none { (seed : ℕ) → gen_counts 0 seed ≡ summary_of 0 [] }
    ensures counts { (count seed : ℕ) → gen_counts (count + 1) seed ≡
        counted (gen_counts count seed) (answers gen_layout (gen_state count seed) (command_numbered seed (count + 1))) }
{}

/// A law: of the lines of a range's reply the last counts alone.
pub fn ranges_count_by_their_end()
    ensures { (rows : List Record) → CountsBy (range_lines rows) (End (length rows)) }
{}

/// A law: a run of generated commands begins with the seed on the empty store. It goes on by the generator's next command
/// and by the last line of its reply; with it the counts of a million commands are numbers below 2^32. In the end the size
/// of the store makes them the whole summary.
pub fn runs_go_on()
    // A run of generated commands begins with the seed, with no counts, and with the empty store.
    ensures begins { (seed : ℕ) → HasRun 0 seed seed (summary_of 0 []) empty_state }
    // Up to the millionth command all counts are numbers below 2^32.
    ensures fits { (count seed x : ℕ) (s : Summary) (state : ArrayState) (c : Command) (last : Reply) →
        HasRun count seed x s state → count < 1000000 → c ≡ command_by (next_draw x) (count + 1) →
        CountsBy (answers gen_layout state c) last → Fits (counted s (last ∷ [])) }
    // A run goes on by the generator's next command, counted by the last line of its reply.
    ensures next { (count seed x : ℕ) (s : Summary) (state : ArrayState) (c : Command) (last : Reply) →
        HasRun count seed x s state → c ≡ command_by (next_draw x) (count + 1) → CountsBy (answers gen_layout state c) last →
        HasRun (count + 1) seed (next_draw x) (counted s (last ∷ [])) (array_step gen_layout state c) }
    // In the end the size of the store makes the counts the whole summary.
    ensures ends { (count seed x : ℕ) (s : Summary) (state : ArrayState) → HasRun count seed x s state →
        sized s (plain state) ≡ gen_summary count seed }
{}

/// A law: what an opening makes of the file of the empty store is the empty state.
pub fn empty_files_begin()
    ensures { (image : List ℕ) → Represents image empty 0 → opened_state image ≡ empty_state }
{}
