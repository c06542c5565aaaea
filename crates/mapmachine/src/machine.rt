ghost use Rattle.std.specs.Prelude.{◌≡◌, ◌<◌, unwrap_or, length, All, Ok, Err, IfOk, IfSome, IfErr, OnErr};
ghost use Rattle.std.specs.List.{AllZip, Contains};
ghost use Rattle.geom.specs.World.{IsExtent};
ghost use Rattle.mapdefs.specs.Alpha.{with_alphas};
ghost use Rattle.mapmachine.specs.Machine.{fine_of, view_of, IsWrittenPicture};

use crate::reply::{Event, Reply};
use crate::views::{scale_of, view_of};
use answers::Answer;
use batches::{BatchError, BatchFault, BatchKind, MAX_BATCH, after_batch};
use capabilities::document;
use compose::{PictureQuery, draw};
use featureinfo::{LayerHits, LayerQuery, hits_in, text};
use layers::Layers;
use mapdefs::{Items, Map, Picture, Shared, SmoothPicture};
use operations::Mime;
use png::{write_png, write_smooth_png};
use scene::Scene;
use std::alloc::{AllocError, Global};
use std::marker::Model;
use supersampling::laws::smooth_by_one;
use supersampling::{FineScene, smooth_picture};
use symbols::laws::alphas;
use symbols::{write_pam, write_ppm, write_smooth_pam, write_smooth_ppm};
use viewport::Fine;
use wmsquery::{
    Format, InformationRequest, MapRequest, QueryError, Request, WmsFault, read as read_query,
    report,
};

/// The map machine: it holds a map, changes it by batches, and answers queries about it.
#[derive(Drop)]
pub struct Machine {
    alloc: Global,
    layers: Layers,
    sequence: u64,
}

impl Model for Machine {
    ghost use Rattle.mapdefs.specs.contracts.expr.Expr as expr;
    ghost use Rattle.std.specs.Coded.{codes};
    ghost use Rattle.batches.specs.Batch.{State};

    ghost Value = { State };

    ghost coded = { Prim.hlevel (codes, expr.the_row.coded) };

    ghost view = { λ m. record { map = m.layers; sequence = m.sequence } };
}

// What a request asks for of a picture.
fn asked_of(request: &MapRequest) -> PictureQuery<'_>
    ensures chosen { result.chosen.now ≡ request.now.chosen }
    ensures background { result.background ≡ request.now.background }
{
    PictureQuery {
        chosen: request.chosen.as_slice(),
        background: request.background,
    }
}

// A picture whose pixels are means, in a format.
fn written_smooth(
    alloc: Global,
    format: Format,
    picture: &SmoothPicture,
) -> Result<Answer, AllocError>
    ensures { IfOk result (IsWrittenPicture format picture.now) }
{
    match format {
        Format::Png => Ok(Answer {
            mime: Mime::Png,
            body: write_smooth_png(alloc, picture)?,
        }),
        Format::Pixmap => Ok(Answer {
            mime: Mime::Pixmap,
            body: write_smooth_ppm(alloc, picture)?,
        }),
        Format::ArbitraryMap => Ok(Answer {
            mime: Mime::ArbitraryMap,
            body: write_smooth_pam(alloc, picture)?,
        }),
    }
}

// A picture in a format.
fn written_picture(alloc: Global, format: Format, picture: &Picture) -> Result<Answer, AllocError>
    ensures { IfOk result (IsWrittenPicture format (with_alphas picture.now)) }
{
    alphas();
    match format {
        Format::Png => Ok(Answer {
            mime: Mime::Png,
            body: write_png(alloc, picture)?,
        }),
        Format::Pixmap => Ok(Answer {
            mime: Mime::Pixmap,
            body: write_ppm(alloc, picture)?,
        }),
        Format::ArbitraryMap => Ok(Answer {
            mime: Mime::ArbitraryMap,
            body: write_pam(alloc, picture)?,
        }),
    }
}

// The hits of a layer, shared with those that were found before, if these have them.
fn found_before(found: &[LayerHits], layer: usize) -> Result<Option<LayerHits>, AllocError>
    ensures { IfOk result (λ hits. IfSome hits (λ h. (h.layer ≡ layer) × Contains found.now h)) }
{
    for hits in found {
        if hits.layer == layer {
            let features = hits.features.share()?;
            return Ok(Some(LayerHits { layer, features }));
        }
    }
    Ok(None)
}

impl Machine {
    ghost use Rattle.batches.specs.Batch.{IsBatchErrorOf, batched};
    ghost use Rattle.mapmachine.specs.Machine.{AreAskedHits, Answers, IsAnswer, Steps, Runs, scene_of};
    ghost use Rattle.wmsquery.specs.Within.{IsMapWithin, IsInformationWithin, IsWithin};

    /// The machine as it begins: with this map, and nothing published. It keeps the allocator. The one error
    /// is that memory was refused.
    pub fn open(alloc: Global, map: Map) -> Result<Self, AllocError>
        ensures { IfOk result (λ m. m ≡ record { map = map; sequence = 0 }) }
    {
        Machine::open_at(alloc, map, 0)
    }

    /// The machine with this map, as after so many published batches. It keeps the allocator. The one error is
    /// that memory was refused.
    pub fn open_at(alloc: Global, map: Map, sequence: u64) -> Result<Self, AllocError>
        ensures { IfOk result (λ m. m ≡ record { map = map; sequence = sequence }) }
    {
        Ok(Machine {
            alloc,
            layers: Layers::of(alloc, map)?,
            sequence,
        })
    }

    /// An equal machine of its own, which shares the features with this one. The one error is that memory was
    /// refused.
    pub fn copy(&self) -> Result<Self, AllocError>
        ensures { IfOk result (λ m. m ≡ self.now) }
    {
        Ok(Machine {
            alloc: self.alloc,
            layers: self.layers.copy()?,
            sequence: self.sequence,
        })
    }

    /// How many batches were published.
    pub fn sequence(&self) -> u64
        ensures { result ≡ self.now.sequence }
    {
        self.sequence
    }

    // The answer to a request for the capabilities: the document.
    fn capabilities_answer(&self) -> Result<Answer, AllocError>
        ensures { IfOk result (Answers self.now (Ok Request.Capabilities)) }
    {
        Ok(Answer {
            mime: Mime::Xml,
            body: document(self.alloc, self.sequence, self.layers.map())?,
        })
    }

    // The scene of a request for a picture: its map, its view and its scale.
    fn scene(&self, request: &MapRequest) -> Scene<'_>
        requires { IsExtent request.now.area }
        ensures { result ≡ scene_of self.now.map request.now }
    {
        Scene::new(self.layers.map(), view_of(request), scale_of(request))
    }

    // The fine picture of a request, where the map asks for one and the area is large enough.
    fn fine(&self, request: &MapRequest) -> Option<Fine>
        requires { IsExtent request.now.area }
        ensures { unwrap_or result (view_of request.now) ≡ fine_of self.now.map request.now }
    {
        let factor = self.layers.map().get().smoothing;
        if factor.times() == 1 {
            return None;
        }
        Fine::new(view_of(request), factor)
    }

    // The answer to a request for a picture, each of whose pixels is the mean of some of a fine picture.
    fn smooth_answer(&self, request: &MapRequest, fine: Fine) -> Result<Answer, AllocError>
        requires within { IsMapWithin (length self.now.map.layers) request.now }
        requires fine { fine ≡ fine_of self.now.map request.now }
        ensures { IfOk result (Answers self.now (Ok (Request.Map request.now))) }
    {
        let asked = asked_of(request);
        let scale = scale_of(request);
        let scene = FineScene::new(self.layers.map(), fine, scale);
        let picture = smooth_picture(self.alloc, &scene, &self.layers, &asked)?;
        written_smooth(self.alloc, request.format, &picture)
    }

    // The answer to a request for a picture whose pixels are those that are drawn.
    fn plain_answer(&self, request: &MapRequest) -> Result<Answer, AllocError>
        requires within { IsMapWithin (length self.now.map.layers) request.now }
        requires plain { fine_of self.now.map request.now ≡ view_of request.now }
        ensures { IfOk result (Answers self.now (Ok (Request.Map request.now))) }
    {
        smooth_by_one();
        let asked = asked_of(request);
        let picture = draw(self.alloc, &self.scene(request), &self.layers, &asked)?;
        written_picture(self.alloc, request.format, &picture)
    }

    // The answer to a request for a picture.
    fn picture_answer(&self, request: &MapRequest) -> Result<Answer, AllocError>
        requires within { IsMapWithin (length self.now.map.layers) request.now }
        ensures { IfOk result (Answers self.now (Ok (Request.Map request.now))) }
    {
        match self.fine(request) {
            Some(fine) => self.smooth_answer(request, fine),
            None => self.plain_answer(request),
        }
    }

    // The hits of a layer whose features are requested.
    fn hits_of(&self, request: &InformationRequest, layer: usize) -> Result<LayerHits, AllocError>
        requires within { IsInformationWithin (length self.now.map.layers) request.now }
        requires layer { layer < length self.now.map.layers }
        ensures { IfOk result (AreAskedHits self.now.map request.now layer) }
    {
        let scene = self.scene(&request.map);
        let asked = LayerQuery {
            layer,
            column: request.column,
            row: request.row,
            count: request.count,
        };
        let features = hits_in(self.alloc, &scene, &self.layers, asked)?;
        Ok(LayerHits {
            layer,
            features: Shared::new(self.alloc, features)?,
        })
    }

    // The hits of a layer: shared with those that were found so far if these have them, else searched for.
    fn next_hits(
        &self,
        request: &InformationRequest,
        found: &[LayerHits],
        layer: usize,
    ) -> Result<LayerHits, AllocError>
        requires within { IsInformationWithin (length self.now.map.layers) request.now }
        requires layer { layer < length self.now.map.layers }
        requires found { All (λ h. AreAskedHits self.now.map request.now h.layer h) found.now }
        ensures { IfOk result (AreAskedHits self.now.map request.now layer) }
    {
        match found_before(found, layer)? {
            Some(hits) => Ok(hits),
            None => self.hits_of(request, layer),
        }
    }

    // The hits of each layer whose features are requested, in the order of the request. A layer that is requested several
    // times is searched once, and its hits are shared.
    fn found(&self, request: &InformationRequest) -> Result<Items<LayerHits>, AllocError>
        requires within { IsInformationWithin (length self.now.map.layers) request.now }
        ensures { IfOk result (λ found. AllZip (AreAskedHits self.now.map request.now) request.now.layers found) }
    {
        let mut found = Items::new(self.alloc);
        for layer in request.layers.as_slice() {
            let hits = self.next_hits(request, found.as_slice(), *layer)?;
            found.push(hits)?;
        }
        Ok(found)
    }

    // The answer to a request for feature information: the text of the hits.
    fn information_answer(&self, request: &InformationRequest) -> Result<Answer, AllocError>
        requires within { IsInformationWithin (length self.now.map.layers) request.now }
        ensures { IfOk result (Answers self.now (Ok (Request.Information request.now))) }
    {
        let found = self.found(request)?;
        Ok(Answer {
            mime: Mime::Plain,
            body: text(self.alloc, self.layers.map(), found.as_slice())?,
        })
    }

    // The answer to a request.
    fn request_answer(&self, request: &Request) -> Result<Answer, AllocError>
        requires within { IsWithin (length self.now.map.layers) request.now }
        ensures { IfOk result (Answers self.now (Ok request.now)) }
    {
        match request {
            Request::Capabilities => self.capabilities_answer(),
            Request::Map(picture) => self.picture_answer(picture),
            Request::Information(information) => self.information_answer(information),
        }
    }

    // The answer to a query that is refused: the document of its fault.
    fn exception_answer(&self, fault: WmsFault) -> Result<Answer, AllocError>
        ensures { IfOk result (Answers self.now (Err fault)) }
    {
        Ok(Answer {
            mime: Mime::Xml,
            body: report(self.alloc, fault)?,
        })
    }

    /// The answer to a query: the document, the picture or the features that it requests, or the document of
    /// its first fault. The one error is that memory was refused.
    pub fn reply(&self, query: &[u8]) -> Result<Answer, AllocError>
        ensures { IfOk result (IsAnswer self.now query.now) }
    {
        match read_query(self.alloc, query, self.layers.map(), self.sequence) {
            Ok(request) => self.request_answer(&request),
            Err(QueryError::Fault(fault)) => self.exception_answer(fault),
            Err(QueryError::NoMemory) => Err(AllocError),
        }
    }

    /// The machine after a batch: all of its commands are applied, and it is counted. The error is the first fault of the
    /// batch, or that memory was refused.
    ///
    /// A layer's list and its index are made once, however many commands change it, and the new ones share the
    /// features with the old ones.
    pub fn after(&self, bytes: &[u8]) -> Result<Self, BatchError>
        ensures published { IfOk result (λ machine. batched bytes.now self.now ≡ Ok machine) }
        ensures refused { IfErr result (IsBatchErrorOf (batched bytes.now self.now)) }
    {
        if bytes.len() > MAX_BATCH {
            let kind = BatchKind::TooLong;
            return Err(BatchError::Fault(BatchFault { index: 0, kind }));
        }
        if self.sequence == u64::MAX {
            let kind = BatchKind::SequenceEnd;
            return Err(BatchError::Fault(BatchFault { index: 0, kind }));
        }
        Ok(Machine {
            alloc: self.alloc,
            layers: after_batch(self.alloc, &self.layers, bytes)?,
            sequence: self.sequence + 1,
        })
    }

    /// Publishes a batch as `after` does, and gives its number. The error is the first fault of the batch, or that memory was
    /// refused; then nothing is changed.
    pub fn batch(&mut self, bytes: &[u8]) -> Result<u64, BatchError>
        ensures published { IfOk result (λ n. (batched bytes.now self.old ≡ Ok self.new) × (n ≡ self.new.sequence)) }
        ensures refused { IfErr result (IsBatchErrorOf (batched bytes.now self.old)) }
        ensures kept { OnErr result (self.new ≡ self.old) }
    {
        *self = self.after(bytes)?;
        Ok(self.sequence)
    }

    /// The reply to one event.
    pub fn step(&mut self, event: &Event) -> Reply
        ensures { Steps self.old event.now result self.new }
    {
        match event {
            Event::Query(query) => match self.reply(query.get()) {
                Ok(answer) => Reply::Answered(answer),
                Err(_) => Reply::NoMemory,
            },
            Event::Batch(bytes) => match self.batch(bytes.get()) {
                Ok(sequence) => Reply::Published(sequence),
                Err(BatchError::Fault(fault)) => Reply::Refused(fault),
                Err(BatchError::NoMemory) => Reply::NoMemory,
            },
        }
    }

    /// The replies to some events, in order. The one error is that memory for the list of replies was
    /// refused. The list is made before the first event, so nothing was changed then.
    pub fn run(&mut self, events: &[Event]) -> Result<Items<Reply>, AllocError>
        ensures run { IfOk result (λ replies. Runs self.old events.now replies self.new) }
        ensures err { OnErr result (self.new ≡ self.old) }
    {
        let mut replies = Vec::with_capacity(self.alloc, events.len())?;
        for event in events {
            replies.push_reserved(self.step(event));
        }
        Ok(Items::of(replies))
    }
}
