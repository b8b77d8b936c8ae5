//! What the words of the command line ask for.
ghost use Rattle.std.specs.Prelude.{◌∷◌, [], map, string_bytes};
ghost use Rattle.trace.specs.Request.{SpellsOrNone};

/// The form in which an object is shown.
#[derive(Clone, Copy)]
pub enum Form {
    /// A picture in SVG.
    Picture,
    /// The history of the calls in EDN, as Jepsen and Knossos read it.
    Edn,
    /// The history of the calls as lines of JSON.
    Json,
    /// What each call cost, and all of them together.
    Costs,
}

/// A request: play a script, then show one object in one form.
#[derive(Clone, Copy)]
pub struct Request<'a> {
    /// The form in which the object is shown.
    pub form: Form,
    /// The name of the script's file.
    pub script: &'a str,
    /// The name of the object.
    pub name: &'a str,
}

/// Returns the request that the words after the program's name spell; none if they spell none.
pub fn parse_request(words: &[String]) -> Option<Request<'_>>
    ensures { SpellsOrNone (map string_bytes words.entry.now) result }
{
    match words {
        [first, script, name] => three(first.as_str(), script.as_str(), name.as_str()),
        [first, script, name, last] => four(
            first.as_str(),
            script.as_str(),
            name.as_str(),
            last.as_str(),
        ),
        _ => None,
    }
}

fn three<'a>(first: &str, script: &'a str, name: &'a str) -> Option<Request<'a>>
    ensures { SpellsOrNone (first.now ∷ script.entry.now ∷ name.entry.now ∷ []) result }
{
    let form = match first {
        "picture" => Form::Picture,
        "costs" => Form::Costs,
        _ => return None,
    };
    Some(Request { form, script, name })
}

fn four<'a>(first: &str, script: &'a str, name: &'a str, last: &str) -> Option<Request<'a>>
    ensures { SpellsOrNone (first.now ∷ script.entry.now ∷ name.entry.now ∷ last.now ∷ []) result }
{
    let "history" = first else {
        return None;
    };
    let form = match last {
        "edn" => Form::Edn,
        "json" => Form::Json,
        _ => return None,
    };
    Some(Request { form, script, name })
}
