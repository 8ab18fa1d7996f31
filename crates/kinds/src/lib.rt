// The kinds of lines, in the order of the format's list.
#![tactic(auto)]

ghost use Rattle.std.specs.Prelude.{◌≡◌};
ghost use Rattle.kinds.specs.Kinds.{has_text, is_leaf, is_frame};

// What a line of a sheet is of.
#[derive(Clone, Copy, Debug, PartialEq, Eq)]
pub enum Kind {
    Text,
    Img,
    Svg,
    Container,
    Link,
    Em,
    Strong,
    Strike,
    Code,
    Block,
    Head,
    Div,
    Quote,
    Ul,
    Ol,
    Dl,
    Dt,
    Dd,
    Break,
    Table,
    Body,
    Row,
    Cell,
    Frag,
    Item,
    Sup,
    Calc,
}

impl Kind {
    // Text, img, svg and calc have a text.
    pub fn has_text(self) -> bool
        ensures { result ≡ has_text self }
    {
        matches!(self, Kind::Text | Kind::Img | Kind::Svg | Kind::Calc)
    }

    // Those, break and frag have no children.
    pub fn is_leaf(self) -> bool
        ensures { result ≡ is_leaf self }
    {
        self.has_text() || matches!(self, Kind::Break | Kind::Frag)
    }

    // Body, row and cell stand only in a table's frame.
    pub fn is_frame(self) -> bool
        ensures { result ≡ is_frame self }
    {
        matches!(self, Kind::Body | Kind::Row | Kind::Cell)
    }
}
