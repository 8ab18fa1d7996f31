// The field that names a kind.
ghost use Rattle.std.specs.Prelude.{◌≡◌, IfSome, Some, drop};
ghost use Rattle.kinds.specs.Kinds.{kind_of};
ghost use Rattle.fields.specs.inner.Reading.{kind_named, kind_read};

use super::Scanned;
use super::places::field_at;
use kinds::Kind;

// The kind that has a name.
#[tactic(auto, using(crate::proofs::Names::no_name))]
fn kind_of(name: &[u8]) -> Option<Kind>
    ensures { result ≡ kind_named (kind_of name.now) }
{
    let kind = match name {
        b"text" => Kind::Text,
        b"img" => Kind::Img,
        b"svg" => Kind::Svg,
        b"container" => Kind::Container,
        b"link" => Kind::Link,
        b"em" => Kind::Em,
        b"strong" => Kind::Strong,
        b"strike" => Kind::Strike,
        b"code" => Kind::Code,
        b"block" => Kind::Block,
        b"head" => Kind::Head,
        b"div" => Kind::Div,
        b"quote" => Kind::Quote,
        b"ul" => Kind::Ul,
        b"ol" => Kind::Ol,
        b"dl" => Kind::Dl,
        b"dt" => Kind::Dt,
        b"dd" => Kind::Dd,
        b"break" => Kind::Break,
        b"table" => Kind::Table,
        b"body" => Kind::Body,
        b"row" => Kind::Row,
        b"cell" => Kind::Cell,
        b"frag" => Kind::Frag,
        b"item" => Kind::Item,
        b"sup" => Kind::Sup,
        b"calc" => Kind::Calc,
        _ => return None,
    };
    Some(kind)
}

// The bytes of `table` and its space, the longest of the commonest names.
const LONGEST: usize = 6;

// The kind at a place, if its name is one of the commonest, and the place after its space. Most lines have one of these: their field is not looked for.
fn common_kind(bytes: &[u8], at: usize) -> Option<Scanned<Kind>>
    ensures { IfSome result (λ k. Some k ≡ kind_read at (drop at bytes.now)) }
{
    let rest = bytes.get(at..)?;
    if rest.len() < LONGEST {
        return None;
    }
    // No match: where its arms meet the proof has no name for what they say.
    if let [b'c', b'e', b'l', b'l', b' ', ..] = rest {
        return Some(Scanned {
            value: Kind::Cell,
            next: at + 5,
        });
    }
    if let [b't', b'e', b'x', b't', b' ', ..] = rest {
        return Some(Scanned {
            value: Kind::Text,
            next: at + 5,
        });
    }
    if let [b'r', b'o', b'w', b' ', ..] = rest {
        return Some(Scanned {
            value: Kind::Row,
            next: at + 4,
        });
    }
    if let [b'b', b'o', b'd', b'y', b' ', ..] = rest {
        return Some(Scanned {
            value: Kind::Body,
            next: at + 5,
        });
    }
    if let [b't', b'a', b'b', b'l', b'e', b' ', ..] = rest {
        return Some(Scanned {
            value: Kind::Table,
            next: at + 6,
        });
    }
    None
}

// The kind that the field at a place names, and the place after its space.
pub fn kind_at(bytes: &[u8], at: usize) -> Option<Scanned<Kind>>
    ensures { result ≡ kind_read at (drop at bytes.now) }
{
    let common = common_kind(bytes, at);
    if common.is_some() {
        return common;
    }
    let name = field_at(bytes, at, b' ')?;
    let value = kind_of(name)?;
    Some(Scanned {
        value,
        next: at + name.len() + 1,
    })
}
