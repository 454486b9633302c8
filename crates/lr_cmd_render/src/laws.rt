//! What is true of all bytes.
ghost use Rattle.lr_cmd_render.specs.Rendered.{RenderPutsImages};

/// `render` puts the images of all entries that aren't gone and have one, joined in their order, where nothing is
/// refused.
pub fn render_puts_images()
    ensures { RenderPutsImages }
{}
