//! The whole text.

ghost use Rattle.std.specs.Prelude.{map, IfOk, Ok};
ghost use Rattle.osek_core.specs.declared.tables.Tables.{Tables};
ghost use Rattle.oil_in.specs.Scan.{Answers};
ghost use Rattle.oil_in.specs.Reading.{opening_lines, fixed_lines, closed_at, objects_at, oil_read};
ghost use Rattle.oil_in.specs.Says.{Says};

use crate::alarms::alarms_at;
use crate::objects::{counters_at, events_at, resources_at};
use crate::scan::Scan;
use crate::tasks::tasks_at;
use kes_text::{Kind, Stop};
use osek_core::Tables;
use std::alloc::Global;

/// The lines before the objects.
const OPENING: [&str; 15] = [
    "OIL_VERSION = \"2.5\";\n",
    "#include \"keso_impl.oil\"\n",
    "CPU keso {\n",
    "  OS os {\n",
    "    STATUS = EXTENDED;\n",
    "    STARTUPHOOK = TRUE;\n",
    "    ERRORHOOK = FALSE;\n",
    "    SHUTDOWNHOOK = FALSE;\n",
    "    PRETASKHOOK = FALSE;\n",
    "    POSTTASKHOOK = FALSE;\n",
    "    USEGETSERVICEID = FALSE;\n",
    "    USEPARAMETERACCESS = FALSE;\n",
    "    USERESSCHEDULER = FALSE;\n",
    "  };\n",
    "  APPMODE mode { };\n",
];

/// Behind lines that stand in each text.
fn fixed_lines<'a>(texts: &[&str], start: Scan<'a>) -> Result<Scan<'a>, Stop>
    ensures { Answers (λ x. x) result (fixed_lines (map (λ text. text.now) texts.now) start.entry) }
{
    let mut scan = start;
    for text in texts {
        scan = scan.fixed(text)?;
    }
    Ok(scan)
}

/// Behind the lines before the objects.
fn opened_at(scan: Scan<'_>) -> Result<Scan<'_>, Stop>
    ensures { Answers (λ x. x) result (fixed_lines opening_lines scan.entry) }
{
    fixed_lines(&OPENING, scan)
}

/// Behind the last line, where nothing is left.
#[tactic(auto, unfolding(crate::specs::Reading::closed_at))]
fn closed_at(scan: Scan<'_>) -> Result<Scan<'_>, Stop>
    ensures { Answers (λ x. x) result (closed_at scan.entry) }
{
    let scan = scan.fixed("};\n")?;
    if scan.text().is_empty() {
        Ok(scan)
    } else {
        Err(scan.refused(Kind::Syntax))
    }
}

/// The objects, each kind in the table's order.
#[tactic(auto, unfolding(crate::specs::Reading::objects_at))]
fn objects_at(alloc: Global, scan: Scan<'_>) -> Result<(Tables, Scan<'_>), Stop>
    ensures { Answers (λ x. x) result (objects_at scan.entry) }
{
    let (events, scan) = events_at(alloc, scan)?;
    let (resources, scan) = resources_at(alloc, scan)?;
    let (counters, scan) = counters_at(alloc, scan)?;
    let (tasks, scan) = tasks_at(alloc, resources.as_slice(), events.as_slice(), scan)?;
    let (alarms, scan) = alarms_at(
        alloc,
        events.as_slice(),
        counters.as_slice(),
        tasks.as_slice(),
        scan,
    )?;
    let tables = Tables {
        events,
        resources,
        counters,
        tasks,
        alarms,
    };
    Ok((tables, scan))
}

/// The tables that the text says.
#[tactic(auto, unfolding(crate::specs::Reading::oil_read))]
fn oil_of(alloc: Global, text: &[u8]) -> Result<Tables, Stop>
    ensures { Answers (λ tables. tables) result (oil_read text.now) }
{
    let scan = opened_at(Scan::new(text))?;
    let (tables, scan) = objects_at(alloc, scan)?;
    closed_at(scan)?;
    Ok(tables)
}

/// The tables that an OIL text says (OIL 2.5, section 3), or why it says none.
///
/// The first line with a fault is refused, by the first of Syntax, Range, Room, Twice and Unknown that it
/// shows. Where the text ends too early, that is Syntax at the line behind its last. A refusal has 0 for
/// its file, which the caller sets. Time is in proportion to the text's length.
pub fn read_oil(alloc: Global, text: &[u8]) -> Result<Tables, Stop>
    // Which tables, or which fault it is, unless memory runs out.
    ensures exact { Answers (λ tables. tables) result (oil_read text.now) }

    // Tables that are read are well configured, their names have the form of a name, and the text is what is
    // printed of them, each byte of it.
    ensures said { IfOk result (Says text.now) }

    // The text of such tables is read as these tables, unless memory runs out.
    ensures complete { (tables : Tables) → Says text.now tables → Answers (λ tables. tables) result (Ok tables) }
{
    oil_of(alloc, text)
}
