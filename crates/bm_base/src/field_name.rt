//! The fields of a job text.

/// A field of a job text, as a refusal names it.
#[derive(Clone, Copy, Debug, PartialEq, Eq)]
pub enum FieldName {
    /// The table `shape`.
    Shape,
    /// `shape.n`: lg of the number of records.
    N,
    /// `shape.b`: lg of the records of a block.
    B,
    /// `shape.d`: lg of the number of disks.
    D,
    /// `shape.m`: lg of the records of a memory load.
    M,
    /// `shape.width`: the bytes of a record.
    Width,
    /// The table `map`.
    Map,
    /// `map.kind`: which map.
    Kind,
    /// `map.p`: lg of the rows of a matrix to be transposed.
    P,
    /// `map.by`: how far a rotation goes.
    By,
    /// `map.bits`: the source bit of each target bit.
    Bits,
    /// `map.rows`: the rows of a bit matrix.
    Rows,
    /// `map.set`: the address bits that a transform acts on.
    Set,
    /// `map.complement`: the constant that is XORed to each address.
    Complement,
    /// The table `drill`.
    Drill,
    /// `drill.start`: where the generator begins.
    Start,
    /// `drill.stops`: the stops of a drill.
    Stops,
    /// The table `run`.
    Run,
    /// `run.checkpoint`: after how many loads progress is made durable.
    Checkpoint,
    /// A key that none of the others names.
    Unknown,
}
