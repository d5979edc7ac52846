//! The words of what is at fault in a job text.

ghost use Rattle.std.specs.Prelude.{◌≡◌, ◌≤◌, ◌++◌, length, decimal};
ghost use Rattle.arrayvec.specs.ArrayString.{array_string_len};
ghost use Rattle.bm_top.specs.StatusWords.{name_of, fault_words};

use arrayvec::ArrayString;
use bm_base::FieldName;
use bm_named::MapFault;
use bm_text::push_number;

/// The printed name of a field.
pub fn field_name(which: FieldName) -> &'static str
    ensures name { result.now ≡ name_of which }
    ensures short { length result.now ≤ 14 }
{
    match which {
        FieldName::Shape => "shape",
        FieldName::N => "shape.n",
        FieldName::B => "shape.b",
        FieldName::D => "shape.d",
        FieldName::M => "shape.m",
        FieldName::Width => "shape.width",
        FieldName::Map => "map",
        FieldName::Kind => "map.kind",
        FieldName::P => "map.p",
        FieldName::By => "map.by",
        FieldName::Bits => "map.bits",
        FieldName::Rows => "map.rows",
        FieldName::Set => "map.set",
        FieldName::Complement => "map.complement",
        FieldName::Drill => "drill",
        FieldName::Start => "drill.start",
        FieldName::Stops => "drill.stops",
        FieldName::Run => "run",
        FieldName::Checkpoint => "run.checkpoint",
        FieldName::Unknown => "unknown",
    }
}

/// The words of a fault of a map.
pub fn fault_words(fault: &MapFault) -> ArrayString<64>
    ensures words { result.bytes ≡ fault_words fault.now }
    ensures short { array_string_len result ≤ 40 }
{
    match fault {
        MapFault::Width => {
            let mut words = ArrayString::new();
            words.push_str("width");
            words
        }
        MapFault::Side { p } => labelled("side ", u64::from(*p)),
        MapFault::Length { got } => labelled("length ", u64::from(*got)),
        MapFault::Range { i } => labelled("range ", u64::from(*i)),
        MapFault::Twice { i, j } => {
            let mut words = labelled("twice ", u64::from(*i));
            push_number(&mut words, " ", *j);
            words
        }
        MapFault::Wide { i } => labelled("wide ", u64::from(*i)),
        MapFault::Singular { x } => labelled("singular ", *x),
        MapFault::Complement { c } => labelled("complement ", *c),
    }
}

// A label and a number in decimal.
fn labelled(label: &str, number: u64) -> ArrayString<64>
    requires { length label.now ≤ 12 }
    ensures words { result.bytes ≡ label.now ++ decimal number }
    ensures short { array_string_len result ≤ 32 }
{
    let mut words = ArrayString::new();
    push_number(&mut words, label, number);
    words
}
