//! What a request asks for, by its method and its target. The definitions are those of `specs/Asked.antt`.
ghost use Rattle.std.specs.Prelude.{◌≡◌, ◌==◌, position};
ghost use Rattle.http_talk.specs.Asked as asked;

use crate::refusal::{Allow, Refusal};
use gw_base::Kind;

/// A target that is served, with its method (RFC 9112, section 3).
#[derive(Clone, Copy, Debug, PartialEq, Eq)]
pub enum Target {
    /// `POST /siri/et`: an estimated timetable.
    EtPost,
    /// `GET /siri/et`: the estimated timetable that says what the last feed says.
    EtGet,
    /// `POST /siri/sx`: situations.
    SxPost,
    /// `POST /gtfs-rt`: a feed.
    RtPost,
    /// `GET /gtfs-rt`: the feed that says what is kept.
    RtGet,
}

/// What is served to a GET (RFC 9110, section 3.1).
#[derive(Clone, Copy, Debug, PartialEq, Eq)]
pub enum Resource {
    /// The feed that says what is kept.
    Feed,
    /// The estimated timetable that says what the last feed says.
    Timetable,
}

/// What a request does at a target: it gets what is served there, or posts a body of a kind.
#[derive(Clone, Copy, Debug, PartialEq, Eq)]
pub enum Action {
    Get(Resource),
    Post(Kind),
}

/// What the head of a request asks for.
#[derive(Clone, Copy, Debug, PartialEq, Eq)]
pub struct Head {
    pub target: Target,
    /// The body's length in bytes, which is 0 for a GET.
    pub length: u64,
}

// The paths.
const FEED: &[u8] = b"/gtfs-rt";

const TIMETABLE: &[u8] = b"/siri/et";

const SITUATIONS: &[u8] = b"/siri/sx";

// The methods.
const GET: &[u8] = b"GET";

const POST: &[u8] = b"POST";

impl Target {
    /// What a request does there.
    pub fn action(&self) -> Action
        ensures { result ≡ asked.action_of self.now }
    {
        match self {
            Target::EtPost => Action::Post(Kind::Estimated),
            Target::EtGet => Action::Get(Resource::Timetable),
            Target::SxPost => Action::Post(Kind::Situations),
            Target::RtPost => Action::Post(Kind::Feed),
            Target::RtGet => Action::Get(Resource::Feed),
        }
    }
}

// The place of the first `?`.
fn query_at(target: &[u8]) -> Option<usize>
    ensures { result ≡ position (λ byte. byte == 63) target.now }
{
    target.iter().position(|byte| *byte == b'?')
}

// The target up to its first `?`.
fn path_of(target: &[u8]) -> &[u8]
    ensures { result.now ≡ asked.path_of target.now }
{
    match query_at(target) {
        Some(at) => &target[..at],
        None => target,
    }
}

// What a method asks for at a path that has GET and POST.
fn get_or_post(method: &[u8], get: Target, post: Target) -> Result<Target, Refusal>
    ensures { result ≡ asked.get_or_post method.now get post }
{
    if method == GET {
        Ok(get)
    } else if method == POST {
        Ok(post)
    } else {
        Err(Refusal::Method(Allow::GetPost))
    }
}

// What it asks for at a path that has POST alone.
fn post_alone(method: &[u8], post: Target) -> Result<Target, Refusal>
    ensures { result ≡ asked.post_alone method.now post }
{
    if method == POST {
        Ok(post)
    } else {
        Err(Refusal::Method(Allow::Post))
    }
}

/// What a method asks for at a target.
pub(crate) fn target_of(method: &[u8], target: &[u8]) -> Result<Target, Refusal>
    ensures { result ≡ asked.target_of method.now (asked.path_of target.now) }
{
    let path = path_of(target);
    if path == FEED {
        get_or_post(method, Target::RtGet, Target::RtPost)
    } else if path == TIMETABLE {
        get_or_post(method, Target::EtGet, Target::EtPost)
    } else if path == SITUATIONS {
        post_alone(method, Target::SxPost)
    } else {
        Err(Refusal::NotFound)
    }
}
