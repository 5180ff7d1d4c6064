//! However a side's stream was cut into pieces, what was given is what all that was pushed holds.
ghost use Rattle.std.specs.Prelude.{◌≡◌, ℕ, ◌-◌, ◌≤◌, ◌++◌, Bool, List, [], ◌∷◌, Option, Some, None, length};
ghost use Rattle.sasl_watch.specs.declared.LineFault.{LineFault as Fault};
ghost use Rattle.sasl_watch.specs.declared.NextLine.{NextLine as Given};
ghost use Rattle.sasl_watch.specs.declared.NextLine.TheVariants.{Bad};
ghost use Rattle.sasl_watch.specs.Lines.{client_lines, has_begun, client_fault, bus_lines, bus_fault};
ghost use Rattle.sasl_watch.specs.LineTable.{Row, client_table, bus_table, kind_by, first_in, IsFirst};
ghost use Rattle.sasl_watch.specs.Watching.{Watch, at_start, ClientGives, BusGives};
ghost use Rattle.sasl_watch.specs.Following.{ClientFollows, ClientTells, BusFollows, BusTells, BusFault};

/// The faults are those of the table: the first byte of the stream that has a kind, with the first row for it. If the
/// table finds none, no byte has a kind.
pub fn line_faults()
    ensures client { (stream : List ℕ) → client_fault stream ≡ first_in client_table stream }
    ensures bus { (n : ℕ) (begun : Bool) (stream : List ℕ)
        → bus_fault n begun stream ≡ first_in (bus_table n begun) stream }
    ensures first { (rows : List Row) (stream : List ℕ) (f : Fault) → first_in rows stream ≡ Some f
        → IsFirst rows stream f }
    ensures only { (rows : List Row) (stream : List ℕ) (f : Fault) → IsFirst rows stream f
        → first_in rows stream ≡ Some f }
    ensures none { (rows : List Row) (stream : List ℕ) → first_in rows stream ≡ None
        → (before behind : List ℕ) (byte : ℕ) → stream ≡ before ++ byte ∷ behind → kind_by rows before byte ≡ None }
{}

/// A fault stays when more bytes are received, and no line is added before it.
pub fn line_faults_stay()
    ensures client { (stream more : List ℕ) (f : Fault) → client_fault stream ≡ Some f
        → (client_fault (stream ++ more) ≡ Some f) × (client_lines (stream ++ more) ≡ client_lines stream) }
    ensures bus { (n : ℕ) (begun : Bool) (stream more : List ℕ) (f : Fault) → bus_fault n begun stream ≡ Some f
        → (bus_fault n begun (stream ++ more) ≡ Some f) × (bus_lines n (stream ++ more) ≡ bus_lines n stream) }
{}

/// At the start, nothing was pushed or given.
pub fn client_starts()
    ensures { ClientFollows [] [] at_start }
{}

/// A piece that is pushed follows all bytes before it.
pub fn client_is_pushed()
    ensures { (pushed : List ℕ) (given : List (List ℕ)) (w : Watch) (piece : List ℕ) → ClientFollows pushed given w
        → ClientFollows (pushed ++ piece) given (record w { left = w.left ++ piece }) }
{}

/// `Lines::next_of_client` gives the next line of all that was pushed. At `Begin` it is the last, and what is left
/// follows it. At `Incomplete` and `Bad` all whole lines were given, and `Bad` has the stream's fault.
pub fn client_next_is_given()
    ensures { (pushed : List ℕ) (given : List (List ℕ)) (old : Watch) (next : Given) (new : Watch)
        → ClientFollows pushed given old → ClientGives old next new → ClientTells pushed given next new }
{}

/// After a fault was reported, each later answer is the same, whatever is pushed: a push doesn't change the reported
/// fault.
pub fn client_fault_is_told_again()
    ensures { (old : Watch) (f : Fault) (next : Given) (new : Watch) → old.bad ≡ Some f → ClientGives old next new
        → (next ≡ Bad f) × (new ≡ old) }
{}

/// At the start, nothing was pushed or given.
pub fn bus_starts()
    ensures { BusFollows [] [] at_start }
{}

/// A piece that is pushed follows all bytes before it.
pub fn bus_is_pushed()
    ensures { (pushed : List ℕ) (given : List (List ℕ)) (w : Watch) (piece : List ℕ) → BusFollows pushed given w
        → BusFollows (pushed ++ piece) given (record w { left = w.left ++ piece }) }
{}

/// `Lines::next_of_bus` gives the next line of all that was pushed, whose first `n` lines answer the client's. At
/// `Done` these were given, and what is left follows them. At `Incomplete` and `Bad` all whole lines among them were
/// given, and the first `Bad` has the stream's fault.
pub fn bus_next_is_given()
    ensures { (pushed : List ℕ) (given : List (List ℕ)) (n : ℕ) (begun : Bool) (old : Watch) (next : Given) (new : Watch)
        → length given ≤ n → BusFollows pushed given old → BusGives (n - length given) begun old next new
        → BusTells pushed given n begun old next new }
{}

/// A fault that was reported stays the stream's fault while more is pushed. If more lines were asked for than were
/// given, this holds for any such number; otherwise the byte was too early, for the number that was given, before
/// BEGIN.
pub fn bus_fault_is_the_streams()
    ensures { (pushed : List ℕ) (given : List (List ℕ)) (w : Watch) (f : Fault) → BusFollows pushed given w
        → w.bad ≡ Some f → BusFault pushed given f }
{}

/// After a fault was reported, each later answer is the same, whatever is pushed, asked for or begun.
pub fn bus_fault_is_told_again()
    ensures { (unanswered : ℕ) (begun : Bool) (old : Watch) (f : Fault) (next : Given) (new : Watch)
        → old.bad ≡ Some f → BusGives unanswered begun old next new → (next ≡ Bad f) × (new ≡ old) }
{}
