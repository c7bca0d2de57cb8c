//! Laws of the report's counts.

ghost use Rattle.std.specs.Prelude.{◌≡◌, ℕ};
ghost use Rattle.tl_beat.specs.declared.beat.Beat.{Beat};
ghost use Rattle.tl_beat.specs.declared.beat.Link.{Link};
ghost use Rattle.tl_events.specs.declared.commit.Event.{Event};
ghost use Rattle.tl_report.specs.statement.Taken.{cell_of, event_cell_of, wide_cell_of, wide_event_cell_of};
ghost use Rattle.tl_sign_off.specs.statement.Report.{count_data, count_of, event_count_of, wide_count_of};
ghost use Rattle.tl_sign_off.specs.statement.Report.{wide_event_count_of};
ghost use Rattle.tl_wide.specs.declared.beat.WideBeat.{WideBeat};
ghost use Rattle.tl_wide_events.specs.declared.commit.WideEvent.{WideEvent};

/// The entry for the cell of a beat names the beat's link, channel and message.
pub fn counts_by_link_and_message()
    ensures { (w : ℕ) (link : Link) (beat : Beat w) (n : ℕ) → count_data (cell_of link beat) n ≡ count_of link beat n }
{}

/// The entry for the cell of a wide beat names the beat's link, channel and message.
pub fn wide_counts_by_link_and_message()
    ensures { (w : ℕ) (link : Link) (beat : WideBeat w) (n : ℕ) →
        count_data (wide_cell_of link beat) n ≡ wide_count_of link beat n }
{}

/// The entry for the cell of an event names its link and its message, or its kind if it is a commit.
pub fn event_counts_by_link_and_message()
    ensures { (w : ℕ) (link : Link) (x : Event w) (n : ℕ) →
        count_data (event_cell_of link x) n ≡ event_count_of link x n }
{}

/// The entry for the cell of an event of a wide trace names its link and its message, or its kind if it is a commit.
pub fn wide_event_counts_by_link_and_message()
    ensures { (w : ℕ) (link : Link) (x : WideEvent w) (n : ℕ) →
        count_data (wide_event_cell_of link x) n ≡ wide_event_count_of link x n }
{}
