//! What is wrong with a file.
ghost use Rattle.std.specs.Prelude.{◌≡◌};
ghost use Rattle.vm_status.specs.Words.{kind_word};

/// What is wrong with a file, of whatever format.
#[derive(Clone, Copy, Debug, PartialEq, Eq)]
pub enum Kind {
    /// A line isn't UTF-8.
    Text,
    /// A line of a configuration has no `=`.
    Equals,
    /// A variable's name isn't made of non-empty parts joined by dots.
    Name,
    /// A value has a `%(` and no later `)`, or the expanded values pass 16 MiB.
    Percent,
    /// A number or other value doesn't have its form.
    Number,
    /// A number is outside its range.
    Range,
    /// A file name is empty, or missing and needed.
    Path,
    /// A value is none of the words of a boolean.
    Boolean,
    /// There are too many disks or orders, or too much input.
    Many,
    /// A line has no word, order or mnemonic that is known in its place.
    Word,
    /// An order doesn't stand where it may.
    Order,
    /// A vCPU is outside the plan.
    Cpu,
    /// A disk is outside the plan.
    Disk,
    /// An instruction doesn't take the operands.
    Operand,
    /// A label doesn't have its form, or isn't defined.
    Label,
    /// A label, a directive or a file's name stands a second time.
    Twice,
    /// The payload is larger than memory, or the code than its part.
    Large,
    /// The file doesn't begin as one of its format does.
    Magic,
    /// The file ends before a field does.
    Short,
    /// The length of the code part isn't allowed.
    Code,
    /// The entry isn't in the code part, or an entry of a journal isn't lawful.
    Entry,
    /// The gate byte in front isn't open.
    Gate,
    /// No entry of a journal has this tag.
    Tag,
    /// A field has a value that isn't allowed.
    Value,
    /// Bytes follow the last field.
    Trailing,
    /// The file is longer than its limit.
    Long,
    /// A disk's length isn't allowed.
    Length,
    /// A command, an option or a variable that isn't built yet.
    Later,
}

impl Kind {
    /// The word for it.
    pub fn word(self) -> &'static str
        ensures { result.now ≡ kind_word self }
    {
        match self {
            Kind::Text => "text",
            Kind::Equals => "equals",
            Kind::Name => "name",
            Kind::Percent => "percent",
            Kind::Number => "number",
            Kind::Range => "range",
            Kind::Path => "path",
            Kind::Boolean => "boolean",
            Kind::Many => "many",
            Kind::Word => "word",
            Kind::Order => "order",
            Kind::Cpu => "cpu",
            Kind::Disk => "disk",
            Kind::Operand => "operand",
            Kind::Label => "label",
            Kind::Twice => "twice",
            Kind::Large => "large",
            Kind::Magic => "magic",
            Kind::Short => "short",
            Kind::Code => "code",
            Kind::Entry => "entry",
            Kind::Gate => "gate",
            Kind::Tag => "tag",
            Kind::Value => "value",
            Kind::Trailing => "trailing",
            Kind::Long => "long",
            Kind::Length => "length",
            Kind::Later => "later",
        }
    }
}
