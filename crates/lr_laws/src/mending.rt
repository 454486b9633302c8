//! Laws of mended files.

ghost use Rattle.lr_laws.specs.MarkedHeaders.{MarkedHeaders};
ghost use Rattle.lr_laws.specs.MarkedPlaces.{FilesAreMadeOfMended};
ghost use Rattle.lr_laws.specs.MendableImages.{MadeEndsCome, MendedImagesCome};
ghost use Rattle.lr_laws.specs.OnlyImages.{OnlyImages};
ghost use Rattle.lr_laws.specs.SamePixels.{KeptLinesAreSame, KeptPixelsAreSame};
ghost use Rattle.lr_laws.specs.SentImages.{SentImagesAreRead};
ghost use Rattle.lr_laws.specs.WholeFiles.{WholeFilesAreThoseThatCame};

/// The header of a marked file is that of the file, with one record more at its end: an ancillary text with the mark.
pub fn a_marked_file_has_one_record_more()
    ensures { MarkedHeaders }
{}

/// A mended file is made of the mended packets since its beginning, in their order, and its mark names the places of
/// exactly the fillers among them.
pub fn a_mark_names_the_fillers()
    ensures { FilesAreMadeOfMended }
{}

/// Only a file that has the header of an image that can be read has fillers.
pub fn only_images_have_fillers()
    ensures { OnlyImages }
{}

/// Where an image was sent, and its last packet and others came, the mended file that ends with that one has an image.
pub fn sent_images_are_read()
    ensures { SentImagesAreRead }
{}

/// Where an image was sent, and no more of its packets are missing than it may have fillers, a file comes that has an
/// image.
pub fn mended_images_come()
    ensures { MendedImagesCome }
{}

/// Where the last packets of an image are missing, a file comes before a later packet of its application: where as many
/// are missing as the image needs, and it may have so many fillers.
pub fn made_ends_come()
    ensures { MadeEndsCome }
{}

/// Where lines aren't coded, the pixels whose bits stand in bytes that both files have at one place are the same.
pub fn kept_pixels_are_the_same()
    ensures { KeptPixelsAreSame }
{}

/// Where lines are coded, the pixels of a piece that both files have at one place are the same.
pub fn kept_lines_are_the_same()
    ensures { KeptLinesAreSame }
{}

/// The mended files without fillers are the files of the packets as they came, in their order.
pub fn whole_files_are_those_that_came()
    ensures { WholeFilesAreThoseThatCame }
{}
