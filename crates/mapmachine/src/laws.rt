//! Laws of the definitions. A law is a function without arguments whose contract states it.

ghost use Rattle.mapmachine.specs.Machine.{PublishedCounts};
ghost use Rattle.mapmachine.specs.Replicas.{ReplicasAnswerAlike};

use featureinfo::laws::one_hit_list;
use supersampling::laws::one_smooth_picture;
use wmsquery::laws::one_meaning;

/// The sequence after a run is that before it plus the number of the batches that were published.
pub fn published_counts()
    ensures { PublishedCounts }
{}

/// Two machines that began alike and published equal lists of batches have one state, whatever
/// queries and refused batches came to each besides. Where both answer a query, they answer it with
/// the same bytes, or in PNG with the same picture. So servers that follow one log stand for one server.
pub fn replicas_answer_alike()
    ensures { ReplicasAnswerAlike }
{
    one_meaning();
    one_smooth_picture();
    one_hit_list();
}
