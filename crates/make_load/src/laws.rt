//! Laws on loads. The functions do nothing: their contracts are the laws.
ghost use Rattle.std.specs.Prelude.{◌≡◌, ℕ, ◌*◌, ◌^◌, ◌≤◌, ◌<◌, List, length};
ghost use Rattle.fix_fields.specs.Frames.{FrameValue};
ghost use Rattle.fix_fields.specs.Found.{Splits};
ghost use Rattle.fix_fields.specs.declared.frame.Found.TheVariants as found;
ghost use Rattle.limit_table.specs.Files.{IsLimitFile};
ghost use Rattle.make_load.specs.Draws.{draws_from, first_state};
ghost use Rattle.make_load.specs.Loads.{limit_text, session_text};
ghost use Rattle.make_load.specs.LoadLimits.{load_limits};
ghost use Rattle.make_load.specs.declared.draws.Fate.TheVariants as fate;

/// The limit file of a load is one, and sets the load's limits.
pub fn load_limits_are_a_file()
    ensures { IsLimitFile limit_text load_limits }
{}

/// The file of each session is whole frames up to its end, of at most 2,000 bytes an order.
pub fn loads_are_whole()
    ensures frames { (number orders session : ℕ) → orders ≤ 10000 → session < 100
        → (frames : List FrameValue)
        × Splits (session_text number orders session) 0 frames found.End }
    ensures size { (number orders session : ℕ) → orders ≤ 10000 → session < 100
        → length (session_text number orders session) ≤ 2000 * orders }
{}

/// What is drawn for orders of a few loads, worked out by hand of the generator's rule.
pub fn worked_draws()
    // The first two orders of the first session of the load of number 7.
    ensures first { draws_from (first_state 7 0) ≡ record {
      account = 2;
      symbol = 2;
      side = 1;
      quantity = 7;
      price = 11;
      fate = fate.Left;
      state = 9680825315112733126;
    } }
    ensures second { draws_from 9680825315112733126 ≡ record {
      account = 0;
      symbol = 0;
      side = 2;
      quantity = 30;
      price = 90;
      fate = fate.Left;
      state = 14352617956746539164;
    } }

    // Another session draws other orders.
    ensures session { draws_from (first_state 7 1) ≡ record {
      account = 1;
      symbol = 3;
      side = 1;
      quantity = 41;
      price = 22;
      fate = fate.Left;
      state = 8567594737451058239;
    } }

    // The largest number and the last session.
    ensures last { draws_from (first_state 4294967295 63) ≡ record {
      account = 0;
      symbol = 7;
      side = 2;
      quantity = 31;
      price = 87;
      fate = fate.Left;
      state = 17790936818891455373;
    } }
{}
